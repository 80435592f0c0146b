//! Changes of names, decided on before they are made.
ghost use Rattle.std.specs.Prelude.{◌≡◌, OnOk};
ghost use Rattle.op_meaning.specs.NameChanges.{change_meant, changes_meant};
ghost use Rattle.world_parts.specs.World.{apply, apply_all};

use std::alloc::{AllocError, Global};
use world_parts::State;

/// A name of a directory that is to lead to a node, or to none.
#[derive(Clone, Copy)]
pub(crate) struct NameChange<'a> {
    pub directory: u32,
    pub name: &'a [u8],
    pub node: Option<u32>,
}

/// What an operation does to names, in order.
#[derive(Clone, Copy)]
pub(crate) enum NameChanges<'a> {
    Nothing,
    One(NameChange<'a>),
    Two(NameChange<'a>, NameChange<'a>),
}

/// Makes a change of a name.
fn change_name(alloc: Global, change: NameChange<'_>, state: &mut State) -> Result<(), AllocError>
    ensures { OnOk result
        (state.new ≡ apply (change_meant state.old.nodes change.entry) state.old) }
{
    state.set_name(alloc, change.directory, change.name, change.node)
}

/// Makes two changes of names, one after the other.
fn change_both(
    alloc: Global,
    first: NameChange<'_>,
    second: NameChange<'_>,
    state: &mut State,
) -> Result<(), AllocError>
    ensures { OnOk result (state.new ≡ apply (change_meant state.old.nodes second.entry)
        (apply (change_meant state.old.nodes first.entry) state.old)) }
{
    change_name(alloc, first, state)?;
    change_name(alloc, second, state)
}

/// Makes changes of names.
pub(crate) fn change_names(
    alloc: Global,
    changes: NameChanges<'_>,
    state: &mut State,
) -> Result<(), AllocError>
    ensures { OnOk result
        (state.new ≡ apply_all (changes_meant state.old.nodes changes.entry).changes state.old) }
{
    match changes {
        NameChanges::Nothing => Ok(()),
        NameChanges::One(change) => change_name(alloc, change, state),
        NameChanges::Two(first, second) => change_both(alloc, first, second, state),
    }
}
