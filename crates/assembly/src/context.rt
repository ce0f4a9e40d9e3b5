use host::Mode;
use method_resolution::{CandidateStep, Settings};

// What is asked, but for the traits in scope. Contracts read it through `question`, and not through a model of the struct: a
// host's meaning consists of functions, and a model's value can hold none.
#[derive(Drop)]
pub struct ProbeContext<'a, H> {
    pub host: &'a H,
    pub settings: Settings,
    pub steps: &'a [CandidateStep],
    pub name: u32,
    pub mode: Mode,
}
