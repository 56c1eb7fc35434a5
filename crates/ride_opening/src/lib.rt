// Step 0 of a run with a boarding time: the seeds stand in its map.
// Promises: the known distance of every vertex is that of its seed, and the table is in order.
// Rests on: the seeds of the query's road (`parts`, `opening`), the map of `improving`.
#![tactic(auto)]

ghost use Rattle.std.specs.Prelude.{◌≡◌, length};
ghost use Rattle.journeys.specs.Records.{seed};
ghost use Rattle.improving.specs.Figures.{Ready, figures};
ghost use Rattle.marking.specs.Setting.{tables, query, Judged};

use improving::improve;
use marking::Asked;
use worktable::Table;

// The map may hold any bytes at the call. A seed stands in it whatever D is: it is offered as if no more were allowed.
pub fn seeds(vertices: &[u8], walks: &[u8], hops: &[u8], a: Asked, map: &mut [u8]) -> Table
    requires { Judged vertices.now walks.now hops.now a × (length map.old ≡ 1048576) }
    ensures { Ready result map.new × (figures result map.new ≡ seed (tables vertices.now walks.now hops.now a) (query a)) }
{
    let road = parts::read_road(walks, a.query);
    let e = records::walk_at(walks, a.query.walk as usize);
    let empty = worktable::start(map, 65536);
    let near = opening::from_ticks(road);
    let one = improve(map, empty, e.from as usize, near.0, near.0);
    if !opening::to_is_seed(road) {
        return one;
    }
    let back = opening::to_ticks(road);
    improve(map, one, e.to as usize, back.0, back.0)
}
