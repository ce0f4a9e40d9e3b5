use assembly::ProbeContext;
use method_resolution::Place;

// What is asked, at a place where candidates are tried. The context is of another crate, so it can get no methods here.
#[derive(Drop)]
pub(crate) struct ProbeAt<'a, H> {
    pub(crate) ctx: &'a ProbeContext<'a, H>,
    pub(crate) place: Place,
}
