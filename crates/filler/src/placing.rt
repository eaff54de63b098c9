// Where a cell stands in the work area: subqueries in ascending number, a cell for each site. And how much of a row the loops go over.
ghost use Rattle.std.specs.Prelude.{◌<◌, ◌≤◌, ◌≡◌};
ghost use Rattle.relations.specs.Code.{most_sets};
ghost use Rattle.filler.specs.Cells.{place_in, reach};

use crate::trials::Tables;
use relations::SETS;

// The place of a subquery's cell at a site, by the list of places alone.
pub fn place(places: &[u32; SETS], set: usize, site: usize) -> usize
    requires { (set < most_sets) × (site < 8) }
    ensures { result ≡ place_in places.now set site }
{
    places[set] as usize + site
}

impl Tables<'_> {
    // The place of a subquery's cell at a site, by the places of the first cells.
    pub fn place(&self, set: usize, site: usize) -> usize
        requires { (set < most_sets) × (site < 8) }
        ensures { result ≡ place_in self.now.places.now set site }
    {
        place(self.places, set, site)
    }
}

// The lanes of a row that the loops go over: in pairs up to four sites, else all eight.
pub(crate) fn reach(sites: usize) -> usize
    requires { 1 ≤ sites }
    ensures { result ≡ reach sites }
{
    if sites <= 2 {
        return 2;
    }
    if sites <= 4 { 4 } else { 8 }
}
