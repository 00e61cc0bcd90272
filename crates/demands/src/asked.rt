// What a build is asked for.
use blocks::header::Fields;
use blocks::sync::Sync;

// What a message is built from: what `build` takes, but for the output.
#[derive(Clone, Copy)]
pub(crate) struct Asked<'a> {
    pub sync: Sync,
    pub countdown: u8,
    pub fields: Fields,
    pub n: usize,
    pub message: &'a [u8],
}
