/// What is decided of a command that isn't refused.
#[derive(Clone, Copy)]
pub enum Change<'a> {
    /// It was sent before, and had the reply with this body: nothing changes.
    Again(&'a str),
    /// It is kept, and its act is carried out as it stands.
    Accepted,
}
