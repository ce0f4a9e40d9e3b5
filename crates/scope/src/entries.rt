// A trait in scope, and how many claims on it are out.
#[derive(Clone, Copy)]
pub struct Entry {
    pub tr: u32,
    pub claims: u16,
}
