// Room that is lent: what does not fit is not stored.
ghost use Rattle.std.specs.Prelude.{◌≡◌, set};

// Sets the element at k, where there is one.
pub fn store<T: Copy>(lent: &mut [T], k: usize, x: T)
    ensures { lent.new ≡ set lent.old k x }
{
    if k < lent.len() {
        lent[k] = x;
    }
}
