// Lengths counted up to a top and never beyond it: no sum and no product can wrap.
ghost use Rattle.std.specs.Prelude.{◌≡◌, ◌+◌, ◌*◌, ◌<◌, ◌≤◌};
ghost use Rattle.run_measure.specs.Inner.Sizes.{capped};

// A sum and one length more.
pub fn add(sum: usize, length: usize, top: usize) -> usize
    requires { sum ≤ top }
    ensures { result ≡ capped top (sum + length) }
{
    if top - sum < length {
        return top;
    }
    sum + length
}

// A sum and one length more, as often as it counts. A product of a small weight is whole; only a big one is tested first.
pub fn add_share(sum: usize, weight: usize, length: usize, top: usize) -> usize
    requires { (sum ≤ top) × (length < 65536) }
    ensures { result ≡ capped top (sum + weight * length) }
{
    if weight < 0x40000000 {
        return add(sum, weight * length, top);
    }
    if length == 0 {
        return sum;
    }
    if (top - sum) / length < weight {
        return top;
    }
    sum + weight * length
}
