//! The numbers of a creature's registers, and the addresses that they name.
//!
//! A register holds 32 bits in two's complement, and its arithmetic wraps.
#![tactic(auto)]

ghost use Rattle.std.specs.Prelude.{◌≡◌, ◌<◌, ◌≤◌, pos};
ghost use Rattle.tierra_model.specs.declared.limits.TheConstants.{MOST_CELLS};
ghost use Rattle.tierra_model.specs.Ring.{address, minus, plus, times};

/// The cell that a register's value names in a soup of `n` cells: the value modulo `n`, never negative.
#[tactic(auto, unfolding(tierra_model::specs::Ring::address))]
pub fn addr(v: i32, n: u32) -> u32
    requires some { 1 ≤ n }
    requires most { n ≤ MOST_CELLS }
    ensures value { result ≡ address v n }
    ensures below { result < n }
{
    if 0 <= v && (v as u32) < n {
        v as u32
    } else {
        v.rem_euclid(n as i32) as u32
    }
}

/// The sum, modulo 2 ^ 32.
pub fn add_wrap(a: i32, b: i32) -> i32
    ensures { result ≡ plus a b }
{
    a.wrapping_add(b)
}

/// The difference, modulo 2 ^ 32.
pub fn sub_wrap(a: i32, b: i32) -> i32
    ensures { result ≡ minus a b }
{
    a.wrapping_sub(b)
}

/// Twice the value, modulo 2 ^ 32.
pub fn shl_wrap(a: i32) -> i32
    ensures { result ≡ times a (pos 2) }
{
    a.wrapping_mul(2)
}

#[cfg(test)]
mod tests {
    use super::*;

    #[test]
    fn gives_addresses(rt: HostRuntime) {
        let cases = [
            (0, 100, 0),
            (99, 100, 99),
            (100, 100, 0),
            (-1, 60000, 59999),
            (-100, 100, 0),
            (-101, 100, 99),
            (7, 1, 0),
            (-7, 1, 0),
            (2147483647, 1048576, 1048575),
            (-2147483648, 1048576, 0),
            (-2147483648, 60000, 36352),
        ];
        for (v, n, want) in cases {
            assert!(rt; 1 <= n && n <= 1048576);
            assert_eq!(rt; addr(v, n), want, "address of {v} in {n} cells");
        }
    }

    #[test]
    fn wraps(rt: HostRuntime) {
        let most = 2147483647;
        let least = -2147483648;
        assert_eq!(rt; add_wrap(2, 3), 5);
        assert_eq!(rt; add_wrap(most, 1), least);
        assert_eq!(rt; add_wrap(least, -1), most);
        assert_eq!(rt; sub_wrap(2, 3), -1);
        assert_eq!(rt; sub_wrap(least, 1), most);
        assert_eq!(rt; sub_wrap(0, least), least);
        assert_eq!(rt; shl_wrap(64), 128);
        assert_eq!(rt; shl_wrap(-3), -6);
        assert_eq!(rt; shl_wrap(1073741824), least);
        assert_eq!(rt; shl_wrap(least), 0);
    }
}
