// The Rust's names: of the types of contents (AnimType), of the letters (AnimInfoType), of the targets below each (the enums of
// TargetIndex) and of the curves. A list has the names in the order of their numbers, a blank between them.
use bflan::curve::Curve;
use bflan::letters;
use std::fmt;

// Name n of a list; nothing behind the last.
#[derive(Clone, Copy)]
struct Listed(&'static str, u32);

impl fmt::Display for Listed {
    fn fmt<W: fmt::Write>(&self, f: &mut fmt::Formatter<W>) -> fmt::Result {
        let Listed(names, n) = *self;
        f.write_str(names.split(' ').nth(n as usize).unwrap_or(""))
    }
}

// The type of a content.
#[derive(Clone, Copy)]
pub(crate) struct Type(pub(crate) u32);

impl fmt::Display for Type {
    fn fmt<W: fmt::Write>(&self, f: &mut fmt::Formatter<W>) -> fmt::Result {
        f.write(Listed("Pane Material User PaneExt StateMachine", self.0))
    }
}

// The curve of a track.
#[derive(Clone, Copy)]
pub(crate) struct CurveName(pub(crate) Curve);

impl fmt::Display for CurveName {
    fn fmt<W: fmt::Write>(&self, f: &mut fmt::Formatter<W>) -> fmt::Result {
        f.write_str(match self.0 {
            Curve::Constant => "Constant",
            Curve::Step => "Step",
            Curve::Hermite => "Hermite",
        })
    }
}

// The name of letters, and the names of the targets below them, if they are listed and not FLEU.
#[derive(Clone, Copy)]
struct Kind(&'static str, Option<&'static str>);

fn with_targets(name: &'static str, targets: &'static str) -> Kind {
    Kind(name, Some(targets))
}

// (bflan has the codes of the letters. The names are here, since no other program prints them.)
fn kind_of(word: u32) -> Kind {
    match word {
        letters::FLCC => with_targets(
            "PerCharacterTransformCurveAnim",
            "TranslateX TranslateY TranslateZ RotateX RotateY RotateZ LeftTopRed LeftTopGreen LeftTopBlue LeftTopAlpha \
              LeftBottomRed LeftBottomGreen LeftBottomBlue LeftBottomAlpha ScaleX ScaleY",
        ),
        letters::FLCT => with_targets("PerCharacterTransformAnim", "EvalTimeOffset EvalTimeWidth"),
        letters::FLPA => with_targets(
            "PaneSrtAnim",
            "TranslateX TranslateY TranslateZ RotateX RotateY RotateZ ScaleX ScaleY SizeX SizeY",
        ),
        letters::FLVC => with_targets(
            "VertexColorAnim",
            "LeftTopRed LeftTopGreen LeftTopBlue LeftTopAlpha RightTopRed RightTopGreen RightTopBlue RightTopAlpha \
              LeftBottomRed LeftBottomGreen LeftBottomBlue LeftBottomAlpha RightBottomRed RightBottomGreen RightBottomBlue \
              RightBottomAlpha PaneAlpha",
        ),
        letters::FLVI => with_targets("VisibilityAnim", "Visibility"),
        letters::FLDS => with_targets(
            "DropShadowAnim",
            "StrokeSize StrokeColorRed StrokeColorGreen StrokeColorBlue StrokeColorAlpha OuterGlowColorRed \
              OuterGlowColorGreen OuterGlowColorBlue OuterGlowColorAlpha OuterGlowSpread OuterGlowSize DropShadowColorRed \
              DropShadowColorGreen DropShadowColorBlue DropShadowColorAlpha DropShadowAngle DropShadowDistance \
              DropShadowSpread DropShadowSize",
        ),
        letters::FLMT => with_targets(
            "MaskTextureAnim",
            "TranslateX TranslateY Rotate ScaleX ScaleY",
        ),
        letters::FLPS => with_targets(
            "ProceduralShapeAnim",
            "ExpLeftTop ExpRightTop ExpLeftBottom ExpRightBottom RadiusLeftTop RadiusRightTop RadiusLeftBottom \
              RadiusRightBottom InnerStrokeSize InnerStrokeColorRed InnerStrokeColorGreen InnerStrokeColorBlue \
              InnerStrokeColorAlpha InnerShadowColorRed InnerShadowColorGreen InnerShadowColorBlue InnerShadowColorAlpha \
              InnerShadowAngle InnerShadowDistance InnerShadowSize ColorOverlayColorRed ColorOverlayColorGreen \
              ColorOverlayColorBlue ColorOverlayColorAlpha GradationOverlayControl0 GradationOverlayControl1 \
              GradationOverlayControl2 GradationOverlayControl3 GradationOverlayColor0Red GradationOverlayColor0Green \
              GradationOverlayColor0Blue GradationOverlayColor0Alpha GradationOverlayColor1Red GradationOverlayColor1Green \
              GradationOverlayColor1Blue GradationOverlayColor1Alpha GradationOverlayColor2Red GradationOverlayColor2Green \
              GradationOverlayColor2Blue GradationOverlayColor2Alpha GradationOverlayColor3Red GradationOverlayColor3Green \
              GradationOverlayColor3Blue GradationOverlayColor3Alpha GradationOverlayAngle OuterShadowColorRed \
              OuterShadowColorGreen OuterShadowColorBlue OuterShadowColorAlpha OuterShadowAngle OuterShadowDistance \
              OuterShadowSize",
        ),
        letters::FLWN => with_targets("WindowAnim", "Top Bottom Left Right"),
        letters::FSMA => with_targets("StateMachineAnim", "PostToChild"),
        letters::FLAC => with_targets("AlphaCompareAnim", "CompareReference"),
        letters::FLFS => with_targets(
            "FontShadowAnim",
            "BlackRed BlackGreen BlackBlue WhiteRed WhiteGreen WhiteBlue WhiteAlpha",
        ),
        letters::FLIM => with_targets("IndirectSrtAnim", "Rotate ScaleU ScaleV"),
        letters::FLMC => with_targets(
            "MaterialColorAnim",
            "BufferRed BufferGreen BufferBlue BufferAlpha Constant0Red Constant0Green Constant0Blue Constant0Alpha \
              Color0Red Color0Green Color0Blue Color0Alpha Color1Red Color1Green Color1Blue Color1Alpha Color2Red \
              Color2Green Color2Blue Color2Alpha Color3Red Color3Green Color3Blue Color3Alpha Color4Red Color4Green \
              Color4Blue Color4Alpha",
        ),
        letters::FLTS => with_targets(
            "TextureSrtAnim",
            "TranslateU TranslateV Rotate ScaleU ScaleV",
        ),
        letters::FLTP => with_targets("TexturePatternAnim", "Image"),
        letters::FTBR => with_targets(
            "BrickRepeatAnim",
            "CountX CountY OffsetX OffsetY LocalScaleX LocalScaleY LocalRotate",
        ),
        letters::FVGA => with_targets("VectorGraphicsAnim", "Time"),
        letters::FLEU => Kind("ExtendedUserDataAnim", None),
        _ => Kind("Invalid", None),
    }
}

// An info's letters and their name; a record keeps no letters that are not listed.
#[derive(Clone, Copy)]
pub(crate) struct Letters(pub(crate) u32);

impl fmt::Display for Letters {
    fn fmt<W: fmt::Write>(&self, f: &mut fmt::Formatter<W>) -> fmt::Result {
        let Kind(name, _targets) = kind_of(self.0);
        if self.0 == 0 {
            return write!(f, "---- {name}");
        }
        for b in self.0.to_le_bytes() {
            f.write_char(char::from(b))?;
        }
        write!(f, " {name}")
    }
}

// The name of a target below letters.
#[derive(Clone, Copy)]
pub(crate) struct Target {
    pub(crate) letters: Letters,
    pub(crate) number: u32,
}

impl fmt::Display for Target {
    fn fmt<W: fmt::Write>(&self, f: &mut fmt::Formatter<W>) -> fmt::Result {
        match kind_of(self.letters.0) {
            Kind(_name, Some(targets)) => f.write(Listed(targets, self.number)),
            Kind(_name, None) => f.write_str("Invalid"),
        }
    }
}
