//! Members by the places of a request.

ghost use Rattle.std.specs.Prelude.{◌≡◌, ◌<◌, ◌≤◌, length, All, IfOk, map};
ghost use Rattle.path_labels.specs.Joining.{IsBehindTheStart, member_in, members_in};

use label_search::Member as PlannedMember;
use no_memory::NoMemory;
use rail_types::List;
use std::alloc::Global;
use tail_states::{Closed, Member, Places};

fn member_of(alloc: Global, places: &Places, member: &PlannedMember) -> Result<Member, NoMemory>
    requires { IsBehindTheStart places.now.members member.now }
    ensures { IfOk result (λ told. told ≡ member_in places.now.members member.now) }
{
    Ok(Member {
        place: places.place(member.place - 1).copy(alloc)?,
        window: member.window,
    })
}

/// The members of a plan by the places of its request.
pub(crate) fn told_members(
    alloc: Global,
    places: &Places,
    members: &List<PlannedMember>,
) -> Result<Closed, NoMemory>
    requires { All (IsBehindTheStart places.now.members) members.now }
    ensures { IfOk result (λ closed. closed.members ≡ members_in places.now.members members.now) }
{
    let mut told = List::new(alloc);
    for member in members.as_slice() {
        told.push(member_of(alloc, places, member)?)?;
    }
    Ok(Closed { members: told })
}
