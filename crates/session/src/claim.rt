// How an added clause binds: every plan must meet it, or a plan that breaks it pays its weight.

#[derive(Clone, Copy)]
pub enum Claim<W> {
    Hard,
    Soft(W),
}
