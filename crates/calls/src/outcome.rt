// What a settlement answers.

// What the hedging cost passes the transfers by, what no account bore of it, and what the transfers bring beyond the
// hedging cost, in whole euros.
#[derive(Clone, Copy, PartialEq, Eq, Debug)]
pub struct Outcome {
    pub loss: u64,
    pub unborne: u64,
    pub surplus: u64,
}
