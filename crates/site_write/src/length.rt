//! How many bytes a record has.
ghost use Rattle.std.specs.Prelude.{◌≡◌, ◌+◌, ◌≤◌, length, vec_len};
ghost use Rattle.std.specs.List.{flat_map};
ghost use Rattle.site_read.specs.Format.{encode_row, placed, held, loop_count, file_of};
ghost use Rattle.loops.specs.Regions.{row_of};
ghost use Rattle.loops.specs.Loading.{table_of};
ghost use Rattle.loops.specs.Places.{place_table};
ghost use Rattle.site.specs.Loaded.{site_places};

use loops::place::Place;
use loops::region::Region;
use loops::region_loop::RegionLoop;
use site::site::Site;

fn region_len(region: &Region) -> usize
    requires { vec_len region.now.targets ≤ 64 }
    ensures { result ≡ length (encode_row (row_of region.now)) }
{
    2 + 2 * region.targets.len()
}

fn rows_len(x: &RegionLoop) -> usize
    ensures value { result ≡ length (flat_map encode_row (table_of x.now)) }
    ensures bound { result ≤ 2080 }
{
    x.regions().iter().map(region_len).sum()
}

// The bytes of a place's record; a vacant place has none.
fn place_len(place: &Place) -> usize
    ensures { result ≡ length (placed (place_table place.now)) }
{
    match place {
        Place::Vacant => 0,
        Place::Region(x) => 2 + rows_len(x),
        Place::Contract(_) => 5,
    }
}

// The loops of a place: one, or none.
fn place_loops(place: &Place) -> u8
    ensures { result ≡ held (place_table place.now) }
{
    match place {
        Place::Vacant => 0,
        _ => 1,
    }
}

/// The bytes of a site's records; a file has six bytes before them.
pub(crate) fn records_len(site: &Site) -> usize
    ensures value { 6 + result ≡ length (file_of (site_places site.now)) }
    ensures bound { result ≤ 8328 }
{
    let places = site.places();
    places.iter().map(|place| place_len(place)).sum()
}

/// The loops of a site.
pub(crate) fn site_loops(site: &Site) -> u8
    ensures { result ≡ loop_count (site_places site.now) }
{
    let places = site.places();
    places.iter().map(|place| place_loops(place)).sum()
}
