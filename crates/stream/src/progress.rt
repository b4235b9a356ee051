// In a file of its own, since specs/Reading names this type.
#![tactic(auto)]

ghost use Rattle.std.specs.Prelude.{◌<◌};
ghost use Rattle.requests.specs.Request.{record_size};

// Where the reading stands: the count, and how many bytes of a record are held, which are no whole one.
#[derive(Clone, Copy)]
pub struct Progress {
    pub count: usize,
    pub filled: usize,
    pub ghost part: { filled < record_size },
}
