ghost use Rattle.std.specs.Prelude.{◌≤◌, length};
ghost use Rattle.std.specs.List.{AllByRecursion, AllByRecursion-prop};
ghost use Rattle.pages.specs.Skip.{Rises, rises_prop};
ghost use native.Mathlib.Bridge.{le_prop};

use arrayvec::ArrayVec;

pub mod filling;

// Where the pages of a skip layer lie in a store of at least `reach` pages: page p at `places[p - 1]`.
#[derive(Drop)]
pub struct SkipTable {
    places: ArrayVec<u16, 1024>,
    reach: u16,
    ghost few: { length places.items ≤ 1024 },
    ghost rising: { Rises 0 places.items } by { rises_prop 0 places.items },
    ghost within: { AllByRecursion (λ k. k ≤ reach) places.items } by { AllByRecursion-prop _ (λ _. le_prop) places.items },
}
