/// What may be directly after a term: `?`, `*` or `+`.
#[derive(Clone, Copy)]
pub enum Suffix {
    Question,
    Star,
    Plus,
}
