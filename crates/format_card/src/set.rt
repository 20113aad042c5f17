// Sets of kinds in one number: bit k stands for kind k.
ghost use Rattle.std.specs.Prelude.{◌≡◌, ◌^◌, ◌<◌};
ghost use Rattle.format_card.specs.Inner.Sets.{in_set};

// The set of one kind.
pub fn only(kind: u8) -> u32
    requires { kind < 32 }
    ensures { result ≡ 2 ^ kind }
{
    1u32 << (kind as u32)
}

// The kind is in the set.
pub fn in_set(kinds: u32, kind: u8) -> bool
    requires { kind < 32 }
    ensures { result ≡ in_set kinds kind }
{
    (kinds >> (kind as u32)) % 2 == 1
}
