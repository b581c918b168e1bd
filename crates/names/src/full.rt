// A path below a prefix, as one run of bytes.
ghost use Rattle.std.specs.Prelude.{◌≡◌, ◌≤◌, ◌<◌, length, take};
ghost use Rattle.model.specs.Paths.{full};
ghost use Rattle.names.specs.Fronts.{lead};

// Writes a prefix, and a slash after it where it is not empty; says where what is below it begins.
pub fn put_prefix(buf: &mut [u8; 1280], prefix: &[u8]) -> usize
    requires { length prefix.now < 1280 }
    ensures { (result ≡ length (lead prefix.now)) × (take result buf.new ≡ lead prefix.now) }
{
    let n = crate::write::put(buf, 0, prefix);
    if n == 0 {
        return 0;
    }
    crate::write::put(buf, n, b"/")
}

// Writes a path below a prefix, and says how long the whole is; a path of zero bytes adds no slash.
pub fn put_full(buf: &mut [u8; 1280], prefix: &[u8], path: &[u8]) -> usize
    requires { length (full prefix.now path.now) ≤ 1280 }
    ensures { (result ≡ length (full prefix.now path.now)) × (take result buf.new ≡ full prefix.now path.now) }
{
    if path.len() == 0 {
        return crate::write::put(buf, 0, prefix);
    }
    let n = put_prefix(buf, prefix);
    crate::write::put(buf, n, path)
}
