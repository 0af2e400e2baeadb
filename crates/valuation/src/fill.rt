// Filling a slice.
ghost use Rattle.std.specs.Prelude.{◌≡◌, ℕ, ◌<◌, length, map};
ghost use Rattle.std.specs.List.{range_with_len};

// Writes at each place what `entry` makes of it.
pub(crate) fn fill_each<T: Copy, F: Fn(usize) -> T>(places: &mut [T], entry: F)
    requires { (j : ℕ) → j < length places.old → F.pre entry j }
    ensures { (f : ℕ → T) →
        ((j : ℕ) (y : T) → j < length places.old → F.post entry j y → y ≡ f j) →
        places.new ≡ map f (range_with_len 0 (length places.old)) }
{
    for (j, place) in places.iter_mut().enumerate() {
        *place = entry(j);
    }
}
