//! The making of a mesh.

ghost use Rattle.std.specs.Prelude.{◌≡◌, ◌≤◌, length, map, All, IfOk};
ghost use Rattle.sk_mesh.specs.Places.{place, IsMesh};
ghost use Rattle.sk_mesh.specs.Ends.{IsUnused};
ghost use Rattle.sk_mesh.specs.Growth.{Joined};

use crate::ends::Ends;
use sk_base::WantOfMemory;
use std::alloc::Global;

/// The ends of 1 to 32 participants in number order, with a ring for each ordered pair of them that
/// has room for 1 to 1,024 messages. The bounds are `MOST_PARTICIPANTS` and `MOST_RING_SLOTS` of
/// [`sk_base::limits`].
pub fn mesh(alloc: Global, n: u32, capacity: usize) -> Result<Vec<Ends>, WantOfMemory>
    requires least { 1 ≤ n }
    requires most { n ≤ 32 }
    requires some_room { 1 ≤ capacity }
    requires most_room { capacity ≤ 1024 }
    ensures size { IfOk result (λ ends. length ends.items ≡ n) }
    ensures mesh { IfOk result (λ ends. IsMesh (map place ends.items)) }
    ensures unused { IfOk result (λ ends. All (IsUnused capacity) ends.items) }
{
    let mut ends = Vec::new(alloc);
    for number in 0..n {
        let newcomer = join(alloc, &mut ends, number, capacity)?;
        ends.push(newcomer)?;
    }
    Ok(ends)
}

/// The ends of a newcomer, which is joined to all that are there.
fn join(
    alloc: Global,
    ends: &mut [Ends],
    number: u32,
    capacity: usize,
) -> Result<Ends, WantOfMemory>
    ensures number { IfOk result (λ newcomer. newcomer.number ≡ number) }
    ensures joined { IfOk result (λ newcomer. Joined capacity ends.old ends.new newcomer) }
{
    let mut newcomer = Ends::alone(alloc, number);
    for earlier in ends.iter_mut() {
        earlier.meet(alloc, &mut newcomer, capacity)?;
    }
    newcomer.skip_itself()?;
    Ok(newcomer)
}
