//! How long a turn is.

ghost use Rattle.std.specs.Prelude.{◌≡◌, ◌≤◌};
ghost use Rattle.tierra_model.specs.Quantum as quantum;

use tierra_model::{MOST_SLICE, Settings};

/// How many instructions a creature whose own block has `size` cells runs in a quantum.
pub fn slice_of(size: u32, settings: &Settings) -> u32
    ensures { result ≡ quantum.slice_of size settings.now }
{
    if !settings.slice_by_size {
        return settings.slice_size;
    }
    let slice = u64::from(size) * u64::from(settings.slice_num) / u64::from(settings.slice_den);
    slice.max(1).min(u64::from(MOST_SLICE)) as u32
}

#[cfg(test)]
mod tests {
    use super::*;
    use tierra_model::defaults;

    fn settings(slice_by_size: bool, slice_num: u32, slice_den: u32) -> Settings
        requires num { (1 ≤ slice_num) × (slice_num ≤ 100) }
        requires den { (1 ≤ slice_den) × (slice_den ≤ 100) }
    {
        let mut settings = defaults();
        settings.slice_by_size = slice_by_size;
        settings.slice_num = slice_num;
        settings.slice_den = slice_den;
        settings
    }

    #[test]
    fn slices_go_by_size_where_they_are_to(rt: HostRuntime) {
        let fixed = settings(false, 1, 4);
        assert_eq!(rt; slice_of(80, &fixed), 25);
        assert_eq!(rt; slice_of(20_000, &fixed), 25);
        let quarters = settings(true, 1, 4);
        for (size, want) in [(80, 20), (83, 20), (4, 1), (3, 1), (1, 1), (20_000, 5_000)] {
            assert_eq!(rt; slice_of(size, &quarters), want, "a quarter of {size}");
        }
        let hundredfold = settings(true, 100, 1);
        for (size, want) in [(80, 8_000), (100, 10_000), (101, 10_000), (20_000, 10_000)] {
            assert_eq!(rt;
                slice_of(size, &hundredfold),
                want,
                "a hundred times {size}"
            );
        }
        assert_eq!(rt; slice_of(50, &settings(true, 3, 7)), 21);
    }
}
