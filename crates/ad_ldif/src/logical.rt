//! A logical line: a physical line with its continuations.

ghost use Rattle.std.specs.Prelude.{◌≡◌};
ghost use Rattle.ad_ldif.specs.Logical.{text_of};

/// The bytes of a logical line: as they stand in the text, or joined from a line and its
/// continuations.
#[derive(Drop)]
pub enum Text<'a> {
    Whole(&'a [u8]),
    Joined(Vec<u8>),
}

/// A logical line, with the number of the physical line where it begins.
#[derive(Drop)]
pub struct Logical<'a> {
    pub number: u32,
    pub text: Text<'a>,
}

impl Logical<'_> {
    pub fn bytes(&self) -> &[u8]
        ensures { result.now ≡ text_of self.now.text }
    {
        match &self.text {
            Text::Whole(bytes) => bytes,
            Text::Joined(bytes) => bytes.as_slice(),
        }
    }
}
