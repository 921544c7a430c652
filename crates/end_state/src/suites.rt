//! The list of suites.
ghost use Rattle.std.specs.Prelude.{◌≡◌, ◌≤◌, length};
ghost use Rattle.end_state.specs.View.{suites_view};

use crate::state::SuiteList;

impl SuiteList {
    /// The list of one to eight suites.
    pub fn new(suites: &[u16]) -> SuiteList
        requires { (1 ≤ length suites.now) × (length suites.now ≤ 8) }
        ensures { suites_view result ≡ suites.now }
    {
        let mut list = [0; 8];
        list[0..suites.len()].copy_from_slice(suites);
        SuiteList {
            list,
            count: suites.len(),
        }
    }

    /// The suites.
    pub fn as_slice(&self) -> &[u16]
        ensures { result.now ≡ suites_view self.now }
    {
        let list: &[u16] = &self.list;
        &list[0..self.count]
    }
}
