// Bands asked for: all of them, or those of a list.
ghost use Rattle.std.specs.Prelude.{◌≡◌, ◌<◌, length, get_or};
ghost use Rattle.layout.specs.Bands.{bands_in, band_count, band_at, q8};

// Question 8: is every listed band below `bands`? "All" looks at no list.
pub fn bands_below(bands: u32, asked: Option<&[u32]>) -> bool
    ensures { result ≡ q8 bands (bands_in asked.entry) }
{
    match asked {
        None => true,
        Some(list) => list.iter().all(|band| *band < bands),
    }
}

// How many of `bands` bands are asked for.
pub fn band_count(bands: u32, asked: Option<&[u32]>) -> usize
    ensures { result ≡ band_count bands (bands_in asked.entry) }
{
    match asked {
        None => bands as usize,
        Some(list) => list.len(),
    }
}

// The band at place k of a list.
fn listed(list: &[u32], k: usize) -> usize
    requires { k < length list.now }
    ensures { result ≡ get_or list.now k 0 }
{
    list[k] as usize
}

// The band at place k of the answer.
pub fn band_at(bands: u32, asked: Option<&[u32]>, k: usize) -> usize
    requires { k < band_count bands (bands_in asked) }
    ensures { result ≡ band_at (bands_in asked.entry) k }
{
    match asked {
        None => k,
        Some(list) => listed(list, k),
    }
}
