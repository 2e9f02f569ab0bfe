//! The tables by which items clash.
ghost use Rattle.std.specs.Prelude.{◌≡◌, ℕ, ◌<◌, Some, None, Contains, get_or, slice_get, vec_len};
ghost use Rattle.hpr_forest.specs.Blocks.{row_at};

/// Tables of items: where each stands, which variable it defines, which it uses, and into which an independent
/// flow edge goes from it. Variables have numbers of their own, below `names`.
pub(crate) struct Flows {
    pub(crate) slots: Vec<Option<(usize, bool)>>,
    pub(crate) variables: Vec<Option<usize>>,
    pub(crate) uses: Vec<Vec<usize>>,
    pub(crate) readers: Vec<Vec<usize>>,
    pub(crate) names: usize,
    ghost variable_count: { vec_len variables ≡ vec_len slots },
    ghost use_count: { vec_len uses ≡ vec_len slots },
    ghost reader_count: { vec_len readers ≡ vec_len slots },
    ghost within: { (k u : ℕ) → Contains (row_at (slice_get readers.items k)) u → u < vec_len slots },
    ghost named: { (k v : ℕ) → get_or variables.items k None ≡ Some v → v < names },
}

/// All are dropped in one call.
impl Drop for Flows {
    fn drop(self) {
        let Flows {
            slots: _,
            variables: _,
            uses: _,
            readers: _,
            names: _,
        } = self;
    }
}
