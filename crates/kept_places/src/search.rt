ghost use Rattle.std.specs.Prelude.{◌≡◌};
ghost use Rattle.kept_places.specs.Rising.{AreRising, IsFoundAt};

/// A thing that is there, and its place.
#[derive(Drop)]
pub struct Kept<X> {
    pub place: u32,
    pub what: X,
}

/// Where among things whose places rise the one of a place stands; None where nothing is at that place.
pub(crate) fn index_of<X>(there: &[Kept<X>], place: u32) -> Option<usize>
    requires { (made : _) × AreRising 0 made there.now }
    ensures { IsFoundAt there.now place result }
{
    there.binary_search_by_key(&place, |kept| kept.place).ok()
}
