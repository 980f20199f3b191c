ghost use Rattle.std.specs.Prelude.{◌≡◌, ◌+◌, ◌≤◌, length, ◌++◌, false, OnOk, OnErr};
ghost use Rattle.sp_tree.specs.Shape.{shape_of, is_nothing, filled, unfilled, planted, unplanted, cut, renumbered, ids_below, way};

use crate::Memory;
use sp_group::{Label, Outcome};
use std::alloc::Global;
use std::mem;

/// What stands at the end of an edge, or directly below a version.
#[cycle(below)]
#[derive(Drop)]
pub(crate) enum Below {
    /// Nothing: no child takes this way.
    Nothing,
    /// Behind the last open group: the child of this id.
    Child(u64),
    /// The next open group.
    Group(Box<Vertex>),
}

/// An open group of a version, above all children that take this way.
#[cycle(below)]
#[derive(Drop)]
pub(crate) struct Vertex {
    run: u32,
    completed: Below,
    abandoned: Below,
}

/// Puts a vertex to the spare ones.
fn make_vertex(alloc: Global, spare: &mut Vec<Box<Vertex>>) -> Result<(), Memory>
    ensures { OnOk result (length spare.new.items ≡ length spare.old.items + 1) }
{
    let vertex = Vertex {
        run: 0,
        completed: Below::Nothing,
        abandoned: Below::Nothing,
    };
    spare.push(Box::new(alloc, vertex)?)?;
    Ok(())
}

impl Below {
    /// Whether nothing is there.
    pub(crate) fn is_nothing(&self) -> bool
        ensures { result ≡ is_nothing (shape_of self.now) }
    {
        matches!(self, Below::Nothing)
    }

    /// Makes the vertices that `fill` takes.
    pub(crate) fn make_missing(
        &self,
        alloc: Global,
        groups: &[u32],
        spare: &mut Vec<Box<Vertex>>,
    ) -> Result<(), Memory>
        ensures made { OnOk result (length spare.new.items
            ≡ length spare.old.items + unfilled groups.now (shape_of self.now)) }
        ensures some { OnErr result (is_nothing (shape_of self.now) ≡ false) }
    {
        let [group, rest @ ..] = groups else {
            return Ok(());
        };
        match self {
            Below::Nothing => Ok(()),
            Below::Group(vertex) if vertex.run == *group => {
                vertex.completed.make_missing(alloc, rest, spare)?;
                vertex.abandoned.make_missing(alloc, rest, spare)
            }
            _ => {
                make_vertex(alloc, spare)?;
                self.make_missing(alloc, rest, spare)
            }
        }
    }

    /// These are the open groups from now on, and those before are among them: each that is new gets a vertex
    /// on each way, at the place of its run, with what stood there under its abandon edge.
    pub(crate) fn fill(&mut self, groups: &[u32], spare: &mut Vec<Box<Vertex>>)
        requires { unfilled groups.now (shape_of self.old) ≤ length spare.old.items }
        ensures shape { shape_of self.new ≡ filled groups.now (shape_of self.old) }
        ensures spare { length spare.new.items + unfilled groups.now (shape_of self.old)
            ≡ length spare.old.items }
    {
        let [group, rest @ ..] = groups else {
            return;
        };
        match self {
            Below::Nothing => (),
            Below::Group(vertex) if vertex.run == *group => {
                vertex.completed.fill(rest, spare);
                vertex.abandoned.fill(rest, spare);
            }
            _ => {
                let Some(mut vertex) = spare.pop() else {
                    unreachable!()
                };
                self.fill(rest, spare);
                vertex.run = *group;
                vertex.completed = Below::Nothing;
                vertex.abandoned = mem::replace(self, Below::Nothing);
                *self = Below::Group(vertex);
            }
        }
    }

    /// Makes the vertices that `plant` takes.
    pub(crate) fn make_way(
        &self,
        alloc: Global,
        groups: &[u32],
        label: &Label,
        spare: &mut Vec<Box<Vertex>>,
    ) -> Result<(), Memory>
        ensures { OnOk result (length spare.new.items
            ≡ length spare.old.items + unplanted groups.now label.now (shape_of self.now)) }
    {
        let [group, rest @ ..] = groups else {
            return Ok(());
        };
        match self {
            Below::Group(vertex) => {
                if label.has(*group) {
                    vertex.completed.make_way(alloc, rest, label, spare)
                } else {
                    vertex.abandoned.make_way(alloc, rest, label, spare)
                }
            }
            _ => {
                make_vertex(alloc, spare)?;
                let nothing = Below::Nothing;
                nothing.make_way(alloc, rest, label, spare)
            }
        }
    }

    /// The child of this id stands at the end of the way that its label takes through the open groups.
    pub(crate) fn plant(
        &mut self,
        groups: &[u32],
        label: &Label,
        id: u64,
        spare: &mut Vec<Box<Vertex>>,
    )
        requires { unplanted groups.now label.now (shape_of self.old) ≤ length spare.old.items }
        ensures { shape_of self.new ≡ planted groups.now label.now id (shape_of self.old) }
    {
        let [group, rest @ ..] = groups else {
            *self = Below::Child(id);
            return;
        };
        match self {
            Below::Group(vertex) => {
                if label.has(*group) {
                    vertex.completed.plant(rest, label, id, spare);
                } else {
                    vertex.abandoned.plant(rest, label, id, spare);
                }
            }
            _ => {
                let Some(mut vertex) = spare.pop() else {
                    unreachable!()
                };
                let mut edge = Below::Nothing;
                edge.plant(rest, label, id, spare);
                *vertex = if label.has(*group) {
                    Vertex {
                        run: *group,
                        completed: edge,
                        abandoned: Below::Nothing,
                    }
                } else {
                    Vertex {
                        run: *group,
                        completed: Below::Nothing,
                        abandoned: edge,
                    }
                };
                *self = Below::Group(vertex);
            }
        }
    }

    /// A group is decided: each vertex of it gives way to what is under its right edge, and what is under the
    /// other one is gone. Takes no memory.
    pub(crate) fn decide(&mut self, run: u32, outcome: Outcome)
        ensures { shape_of self.new ≡ cut run outcome (shape_of self.old) }
    {
        let Below::Group(vertex) = self else {
            return;
        };
        if vertex.run == run {
            *self = match outcome {
                Outcome::Completed => mem::replace(&mut vertex.completed, Below::Nothing),
                Outcome::Abandoned => mem::replace(&mut vertex.abandoned, Below::Nothing),
            };
            return;
        }
        vertex.completed.decide(run, outcome);
        vertex.abandoned.decide(run, outcome);
        if vertex.completed.is_nothing() && vertex.abandoned.is_nothing() {
            *self = Below::Nothing;
        }
    }

    /// The child at the end of a label's way has another id. Takes no memory.
    pub(crate) fn renumber(&mut self, label: &Label, id: u64)
        ensures { shape_of self.new ≡ renumbered label.now id (shape_of self.old) }
    {
        match self {
            Below::Nothing => (),
            Below::Child(child) => *child = id,
            Below::Group(vertex) => {
                if label.has(vertex.run) {
                    vertex.completed.renumber(label, id);
                } else {
                    vertex.abandoned.renumber(label, id);
                }
            }
        }
    }

    /// Puts the ids of all children that are there to those of a list.
    pub(crate) fn add_ids(&self, ids: &mut Vec<u64>) -> Result<(), Memory>
        ensures { OnOk result (ids.new.items ≡ ids.old.items ++ ids_below (shape_of self.now)) }
    {
        match self {
            Below::Nothing => Ok(()),
            Below::Child(id) => {
                ids.push(*id)?;
                Ok(())
            }
            Below::Group(vertex) => {
                vertex.completed.add_ids(ids)?;
                vertex.abandoned.add_ids(ids)
            }
        }
    }

    /// Puts the edges of a label's way to a path.
    pub(crate) fn add_way(
        &self,
        label: &Label,
        path: &mut Vec<(u32, Outcome)>,
    ) -> Result<(), Memory>
        ensures { OnOk result (path.new.items
            ≡ path.old.items ++ way label.now (shape_of self.now)) }
    {
        let Below::Group(vertex) = self else {
            return Ok(());
        };
        if label.has(vertex.run) {
            path.push((vertex.run, Outcome::Completed))?;
            vertex.completed.add_way(label, path)
        } else {
            path.push((vertex.run, Outcome::Abandoned))?;
            vertex.abandoned.add_way(label, path)
        }
    }
}
