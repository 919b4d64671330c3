//! What the dotted paths of a module name.

ghost use Rattle.std.specs.Prelude.{◌≡◌, [], IfOk, OnOk};
ghost use Rattle.bind_struct.specs.Paths.{named, with_path, paths_of as paths_in};

use indexmap::IndexMap;
use joint_ir::FlatModule;
use src_text::Name;
use std::alloc::{AllocError, Global};
use std::marker::Model;

/// What a path names.
#[derive(Clone, Copy, Debug, PartialEq, Eq)]
pub enum Thing {
    /// By its place in `signals`.
    Signal(usize),
    Instance,
}

/// What paths name. Contracts see the paths, each with what it names.
#[derive(Drop)]
pub struct Paths {
    alloc: Global,
    things: IndexMap<String, Thing>,
}

impl Model for Paths {
    ghost use Rattle.std.specs.Prelude.{List, ℕ};
    ghost use Rattle.bind_struct.specs.declared.paths.Thing.{Thing};
    ghost use Rattle.bind_struct.specs.Pairs.{pairs_of};

    ghost Value = { List (List ℕ × Thing) };

    ghost view = { λ p. pairs_of p.things.entries };
}

impl Paths {
    fn new(alloc: Global) -> Paths
        ensures { result ≡ [] }
    {
        Paths {
            alloc,
            things: IndexMap::new(alloc),
        }
    }

    /// What a path names.
    pub fn find(&self, path: &Name) -> Option<Thing>
        ensures { result ≡ named self.now path.now }
    {
        self.things.get(path.text()).copied()
    }

    fn put(&mut self, path: &Name, thing: Thing) -> Result<(), AllocError>
        ensures { OnOk result (named self.new ≡ with_path path.now thing (named self.old)) }
    {
        let key = String::from_str(self.alloc, path.text())?;
        self.things.insert(key, thing)?;
        Ok(())
    }
}

/// What the paths of a module name.
pub fn paths_of(alloc: Global, flat: &FlatModule) -> Result<Paths, AllocError>
    ensures { IfOk result (λ p. named p ≡ paths_in flat.now) }
{
    let mut paths = Paths::new(alloc);
    let instances = flat.instances.as_slice();
    let mut i = instances.len();
    while i > 0 {
        i -= 1;
        paths.put(&instances[i], Thing::Instance)?;
    }
    let signals = flat.signals.as_slice();
    let mut i = signals.len();
    while i > 0 {
        i -= 1;
        paths.put(&signals[i].path, Thing::Signal(i))?;
    }
    Ok(paths)
}
