/// A decision that a session accepted: the family whose equality it decides, the family into which it decides it, and its entry.
#[derive(Clone, Copy, Debug)]
pub struct Decision {
    pub family: u32,
    pub into: u32,
    pub entry: u32,
}
