//! What a received spawn makes.
use gd_variant::{Text, TextRun};

/// What a received spawn makes: the path of the parent and its own, the place of its scene, that
/// scene's spawn properties in order, and the property that takes an argument.
#[derive(Drop)]
pub struct Making {
    pub under: Text,
    pub path: Text,
    pub place: u32,
    pub props: TextRun,
    pub argument: Option<Text>,
}
