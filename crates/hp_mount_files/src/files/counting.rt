//! How many files, maps and tasks there are, and their names and numbers.
ghost use Rattle.std.specs.Prelude.{◌≡◌, not, ◌<◌, ◌≤◌, length, IfOk};
ghost use Rattle.hp_lookup.specs.Asking.{is_first_of, next_of};
ghost use Rattle.std.specs.List.{All, filter_map};
ghost use Rattle.hp_model.specs.Profile.{most_maps, most_name_bytes};
ghost use Rattle.hp_lookup.specs.Places.{all_maps, all_tasks};

use super::Files;
use hp_lookup::NextMap;
use hp_model::bytes::Bytes;
use hp_model::names::Names;
use hp_model::naming::Naming;
use std::alloc::AllocError;

impl<N: Naming> Files<N> {
    /// How many files there are.
    pub fn count(&self) -> usize
        ensures { result ≡ length self.now.files }
    {
        self.list.len()
    }

    /// How many maps the files have.
    pub fn map_count(&self) -> u64
        ensures { result ≡ length (all_maps self.now.files) }
    {
        self.maps
    }

    /// How many tasks have maps of the files.
    pub fn task_count(&self) -> u64
        ensures { result ≡ length (all_tasks self.now.files) }
    {
        self.hints.task_count() as u64
    }

    /// Whether the task has a map.
    pub fn has_maps(&self, task: u64) -> bool
        ensures { result ≡ not (is_first_of task self.now.files) }
    {
        self.hints.count(task) > 0
    }

    /// The number that the task's next map gets, which is the least that none of its maps has. It takes some twelve steps.
    pub fn next_map(&self, task: u64) -> NextMap
        requires { length (all_maps self.now.files) < most_maps }
        ensures number { result.number ≡ next_of task self.now.files }
        ensures first { result.is_first ≡ is_first_of task self.now.files }
    {
        NextMap {
            number: self.hints.least_unused(task),
            is_first: !self.has_maps(task),
        }
    }

    /// The names of the files that have one, in order of creation. Refused where memory is.
    pub fn names(&self) -> Result<Names, AllocError>
        ensures names { IfOk result (λ names. names ≡ filter_map (λ f. f.name) self.now.files) }
        ensures few { IfOk result (λ names. length names ≤ length self.now.files) }
        ensures short { IfOk result (λ names. All (λ name. length name ≤ most_name_bytes) names) }
    {
        let files = &self.list;
        let mut names = Vec::with_capacity(self.alloc, files.len())?;
        for at in 0..files.len() {
            if let Some(name) = files[at].name() {
                names.push_reserved(Bytes::copied(self.alloc, name)?);
            }
        }
        Ok(Names::new(names))
    }
}
