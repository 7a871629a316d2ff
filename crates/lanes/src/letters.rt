// Alignment markers made of letters.
ghost use Rattle.std.specs.Prelude.{◌≡◌, ℕ};
ghost use Rattle.lanes.specs.Letters.{marker_from, layout_of};
ghost use Rattle.lanes.specs.Markers.{marker_at};

// The marker that has these letters, a, b, u, v and w.
fn marker_from(letters: &[u8; 5]) -> [u8; 15]
    ensures { result ≡ marker_from letters.now }
{
    let [a, b, u, v, w] = *letters;
    [
        0x9A, 0x4A, 0x26, a, 0x65, 0xB5, 0xD9, b, u, v, w, !b, !u, !v, !w,
    ]
}

// The marker of a lane, by the letters of all lanes; zeros past them.
pub fn marker_of(letters: &[[u8; 5]], lane: usize) -> [u8; 15]
    ensures { (pairs : ℕ) → result ≡ marker_at (layout_of letters.now pairs) lane }
{
    letters.get(lane).map_or([0; 15], marker_from)
}
