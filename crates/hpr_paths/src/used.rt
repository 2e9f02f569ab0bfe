//! The names that points use.
ghost use Rattle.std.specs.Prelude.{◌≡◌, IfOk};
ghost use Rattle.hpr_paths.specs.Spots.{names_of};
ghost use Rattle.hpr_paths.specs.Roles.{role_of};

use crate::spot::Role;
use hpr_terms::{Name, NoMemory, copy_names};
use std::alloc::Global;

/// The names that a point uses.
pub(crate) fn names_of(alloc: Global, role: &Role) -> Result<Vec<Name>, NoMemory>
    ensures { IfOk result (λ names. names.items ≡ names_of (role_of role.now)) }
{
    match role {
        Role::Enter => Ok(Vec::new(alloc)),
        Role::Part(_, content) => content.used_names(alloc),
        Role::Exit(finals) => copy_names(alloc, finals),
    }
}
