// What the estimate answers: exact at level 0, about above it, or a refusal's number. The rules fix these
// three cases.
#[derive(Clone, Copy)]
pub enum Estimate {
    Exact(u32),
    About(f64),
    Refused(u32),
}
