// Document 01, "Walk, select and rule": what is kept of a run of the rule's steps.
ghost use Rattle.std.specs.Prelude.{◌≤◌};

// The working list (the first `len` entries) with the items that its select holds, the list emitted so far (the first `emitted`), and the
// tries so far. The arrays have a length beside them, since nothing allocates.
#[derive(Clone, Copy)]
pub struct Progress {
    pub items: [u32; 16],
    pub working: [u32; 16],
    pub len: usize,
    pub list: [u32; 32],
    pub emitted: usize,
    pub tries: u32,
    pub ghost len_bound: { len ≤ 16 },
    pub ghost emitted_bound: { emitted ≤ 32 },
}
