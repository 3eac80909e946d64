//! A file among others.

ghost use Rattle.std.specs.Prelude.{◌≡◌, ◌<◌, length, map, get_or};
ghost use Rattle.relay_world.specs.Gathering.{file_as};

/// A file of a table: its name and its bytes.
#[derive(Clone, Copy)]
pub(crate) struct File<'f> {
    pub name: &'f [u8],
    pub bytes: &'f [u8],
}

/// The file at this place.
pub(crate) fn file_at<'f>(files: &'f [(&'f [u8], &'f [u8])], place: usize) -> File<'f>
    requires { place < length files.now }
    ensures { get_or (map (λ f. file_as f.0.now f.1.now) files.now) place (file_as result.name.now result.bytes.now) ≡ file_as result.name.now result.bytes.now }
{
    File {
        name: files[place].0,
        bytes: files[place].1,
    }
}
