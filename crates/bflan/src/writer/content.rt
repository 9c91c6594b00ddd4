// Contents: a name, counts, and infos behind their offsets.
ghost use Rattle.std.specs.Prelude.{◌≡◌, ◌+◌, ◌-◌, ◌*◌, ◌≤◌, leb, length, replicate};
ghost use Rattle.std.proofs.lemmas.List.Edits.{sets};
ghost use Rattle.base.specs.Fill.{padding_of};
ghost use Rattle.bflan.specs.Judge.{next_text, times};
ghost use Rattle.bflan.specs.pai1.Judge.{info, content};
ghost use Rattle.bflan.specs.pai1.Layout.{content_lay};
ghost use Rattle.bflan.specs.pai1.Record.{AnimContent};
ghost use Rattle.bflan.specs.inner.Pen.{HasNext, behind, listed};
ghost use Rattle.bflan.specs.inner.LayoutParts.{name_lay, body_lay};

use crate::judge::word::word_of;
use crate::reader::content::USER;
use crate::writer::Writer;
use crate::writer::field::{distance, put_chars, put_counts};
use crate::writer::listed::Part;
use base::fill::{padding, zeros};
use base::number::write;
use base::placeholder::{patch_u32, write_placeholder_u32};

impl Writer<'_, '_> {
    // The name, with zeros up to 28 bytes.
    fn put_name(&mut self)
        requires { HasNext name_lay (next_text (λ n. leb n 28)) self.old }
        ensures { self.new ≡ behind name_lay (next_text (λ n. leb n 28)) self.old }
    {
        let at = self.at;
        let n = word_of(self.words, self.word) as usize;
        put_chars(self.texts, self.byte, n, self.out, at);
        zeros(self.out, at + n, 28 - n);
        self.word += 1;
        self.byte += n;
        self.at = at + 28;
    }

    // The infos of a User content that starts at `start`, with the two numbers before their table: its offset, and the total size, which is
    // patched when the infos are there.
    fn put_user(&mut self, n: usize, start: usize)
        requires { (self.old.at ≡ start + 32) × HasNext (body_lay 2) (times n info) self.old }
        ensures { self.new ≡ behind (body_lay 2) (times n info) self.old }
    {
        let at = self.at;
        write::<u32>(self.out, at, 40);
        let total = write_placeholder_u32(self.out, at + 4);
        self.at = at + 8;
        let left_out = self.put_infos(n, start);
        let end = self.at;
        patch_u32(self.out, total, distance(start + left_out, end));
    }

    // What is behind the name and the counts of a content that starts at `start`.
    fn put_body(&mut self, kind: u32, n: usize, start: usize)
        requires { (self.old.at ≡ start + 32) × HasNext (body_lay kind) (times n info) self.old }
        ensures { self.new ≡ behind (body_lay kind) (times n info) self.old }
    {
        if kind == USER {
            self.put_user(n, start);
            return;
        }
        let _left_out = self.put_infos(n, start);
    }

    // Zeros up to a multiple of 4, counted from `start`.
    fn put_padding(&mut self, start: usize)
        requires { (start ≤ self.old.at) × (self.old.at ≤ 16777216) }
        ensures { self.new ≡ record self.old { at = self.old.at + padding_of (self.old.at - start); out = record self.old.out { now = sets self.old.out.now self.old.at (replicate (padding_of (self.old.at - start)) 0) } } }
    {
        let at = self.at;
        let n = padding(at - start);
        zeros(self.out, at, n);
        self.at = at + n;
    }

    // A content from the next word on.
    fn put_content(&mut self)
        requires { HasNext content_lay content self.old }
        ensures { self.new ≡ behind content_lay content self.old }
    {
        let start = self.at;
        self.put_name();
        let i = self.word;
        let kind = word_of(self.words, i);
        let n = word_of(self.words, i + 1);
        put_counts(self.out, start + 28, n, kind);
        self.word = i + 2;
        self.at = start + 32;
        self.put_body(kind, n as usize, start);
        self.put_padding(start);
    }

    // `n` contents from the next word on, behind the table of their offsets, which count from `base`.
    pub(crate) fn put_contents(&mut self, n: usize, base: usize)
        requires { (base ≤ self.old.at) × HasNext (listed content_lay (self.old.at + 4 * n - base)) (times n content) self.old }
        ensures { self.new ≡ behind (listed content_lay (self.old.at + 4 * n - base)) (times n content) self.old }
    {
        self.put_listed(Contents, n, base);
    }
}

// The contents of a record.
#[derive(Clone, Copy)]
struct Contents;

impl Part for Contents {
    ghost Value = { AnimContent };

    ghost lay = { content_lay };

    ghost judged = { λ _. content };

    fn put(self, w: &mut Writer<'_, '_>) {
        w.put_content();
    }
}
