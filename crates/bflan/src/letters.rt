// The letters of an info, and what they say of the target numbers below it (document 01, 'The section', Info).
ghost use Rattle.std.specs.Prelude.{◌≡◌};
ghost use Rattle.bflan.specs.pai1.Letters.{kind_of, letters_of, target_of, target_fits};

// The codes, each the number that its four letters are in a section, the first of them its lowest byte; with the Rust's names.

pub const FLCC: u32 = 0x4343_4C46; // PerCharacterTransformCurveAnim

pub const FLCT: u32 = 0x5443_4C46; // PerCharacterTransformAnim

pub const FLPA: u32 = 0x4150_4C46; // PaneSrtAnim

pub const FLVC: u32 = 0x4356_4C46; // VertexColorAnim

pub const FLVI: u32 = 0x4956_4C46; // VisibilityAnim

pub const FLDS: u32 = 0x5344_4C46; // DropShadowAnim

pub const FLMT: u32 = 0x544D_4C46; // MaskTextureAnim

pub const FLPS: u32 = 0x5350_4C46; // ProceduralShapeAnim

pub const FLWN: u32 = 0x4E57_4C46; // WindowAnim

pub const FSMA: u32 = 0x414D_5346; // StateMachineAnim

pub const FLAC: u32 = 0x4341_4C46; // AlphaCompareAnim

pub const FLFS: u32 = 0x5346_4C46; // FontShadowAnim

pub const FLIM: u32 = 0x4D49_4C46; // IndirectSrtAnim

pub const FLMC: u32 = 0x434D_4C46; // MaterialColorAnim

pub const FLTS: u32 = 0x5354_4C46; // TextureSrtAnim

pub const FLTP: u32 = 0x5054_4C46; // TexturePatternAnim

pub const FTBR: u32 = 0x5242_5446; // BrickRepeatAnim

pub const FVGA: u32 = 0x4147_5646; // VectorGraphicsAnim

pub const FLEU: u32 = 0x5545_4C46; // ExtendedUserDataAnim

// The raw number of a target under letters that are not listed.
pub const INVALID_TARGET: u8 = 255;

// What letters say of their info.
#[derive(Clone, Copy)]
pub enum AnimInfoType {
    // Targets, each of whose numbers is below this one.
    Standard(u8),
    // Extended data in the place of targets.
    ExtendedUserData,
    // Letters that are not listed.
    Invalid,
}

#[tactic(auto, using(crate::proofs::letters::Codes::unlisted), unfolding(crate::specs::pai1::Letters::kind_of, crate::specs::pai1::Letters::listings, crate::specs::pai1::Letters::fleu, base::specs::Number::val))]
pub fn kind_of(letters: u32) -> AnimInfoType
    ensures { result ≡ kind_of letters }
{
    match letters {
        FLCC => AnimInfoType::Standard(16),
        FLCT => AnimInfoType::Standard(2),
        FLPA => AnimInfoType::Standard(10),
        FLVC => AnimInfoType::Standard(17),
        FLVI => AnimInfoType::Standard(1),
        FLDS => AnimInfoType::Standard(19),
        FLMT => AnimInfoType::Standard(5),
        FLPS => AnimInfoType::Standard(52),
        FLWN => AnimInfoType::Standard(4),
        FSMA => AnimInfoType::Standard(1),
        FLAC => AnimInfoType::Standard(1),
        FLFS => AnimInfoType::Standard(7),
        FLIM => AnimInfoType::Standard(3),
        FLMC => AnimInfoType::Standard(28),
        FLTS => AnimInfoType::Standard(5),
        FLTP => AnimInfoType::Standard(1),
        FTBR => AnimInfoType::Standard(7),
        FVGA => AnimInfoType::Standard(1),
        FLEU => AnimInfoType::ExtendedUserData,
        _ => AnimInfoType::Invalid,
    }
}

// The letters' word in the record: 0 for letters that are not listed.
#[tactic(auto, unfolding(crate::specs::pai1::Letters::letters_of))]
pub fn letters_of(letters: u32) -> u32
    ensures { result ≡ letters_of letters }
{
    match kind_of(letters) {
        AnimInfoType::Standard(_count) => letters,
        AnimInfoType::ExtendedUserData => letters,
        AnimInfoType::Invalid => 0,
    }
}

// A target's number as it is read. Each range ends one below its letters' number.
// Kept: by `kind_of` this would be five lines. But then it is a call, and a small section takes 10 % longer to read.
#[tactic(auto, using(crate::proofs::letters::Codes::target_below, crate::proofs::letters::Codes::target_above, crate::proofs::letters::Codes::target_by, crate::proofs::letters::Codes::unlisted), unfolding(crate::specs::pai1::Letters::kind_of, crate::specs::pai1::Letters::listings, crate::specs::pai1::Letters::fleu, base::specs::Number::val))]
pub fn resolve(letters: u32, raw: u8) -> u8
    ensures { result ≡ target_of letters raw }
{
    match letters {
        FLCC => match raw {
            0..=15 => raw,
            _ => 0,
        },
        FLCT => match raw {
            0..=1 => raw,
            _ => 0,
        },
        FLPA => match raw {
            0..=9 => raw,
            _ => 0,
        },
        FLVC => match raw {
            0..=16 => raw,
            _ => 0,
        },
        FLVI => match raw {
            0..=0 => raw,
            _ => 0,
        },
        FLDS => match raw {
            0..=18 => raw,
            _ => 0,
        },
        FLMT => match raw {
            0..=4 => raw,
            _ => 0,
        },
        FLPS => match raw {
            0..=51 => raw,
            _ => 0,
        },
        FLWN => match raw {
            0..=3 => raw,
            _ => 0,
        },
        FSMA => match raw {
            0..=0 => raw,
            _ => 0,
        },
        FLAC => match raw {
            0..=0 => raw,
            _ => 0,
        },
        FLFS => match raw {
            0..=6 => raw,
            _ => 0,
        },
        FLIM => match raw {
            0..=2 => raw,
            _ => 0,
        },
        FLMC => match raw {
            0..=27 => raw,
            _ => 0,
        },
        FLTS => match raw {
            0..=4 => raw,
            _ => 0,
        },
        FLTP => match raw {
            0..=0 => raw,
            _ => 0,
        },
        FTBR => match raw {
            0..=6 => raw,
            _ => 0,
        },
        FVGA => match raw {
            0..=0 => raw,
            _ => 0,
        },
        FLEU => INVALID_TARGET,
        _ => INVALID_TARGET,
    }
}

// Whether a record may have this target number under these letters.
#[tactic(auto, using(crate::proofs::letters::Codes::target_fits_by))]
pub fn target_fits(letters: u32, number: u32) -> bool
    ensures { result ≡ target_fits letters number }
{
    match kind_of(letters) {
        AnimInfoType::Standard(count) => number < u32::from(count),
        AnimInfoType::ExtendedUserData => number == 255,
        AnimInfoType::Invalid => number == 255,
    }
}
