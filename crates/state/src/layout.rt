// Where the parts of a picture lie: header, processor records, mutex records, thread records.
ghost use Rattle.std.specs.Prelude.{◌≡◌};
ghost use Rattle.reference.specs.Picture.{mutexes_at, threads_at, picture_bytes};

// How many bytes each part takes; no picture has more than PICTURE.
#[derive(Clone, Copy, Debug, PartialEq, Eq)]
pub struct Width {}

impl Width {
    pub const HEADER: usize = 8;

    pub const PROCESSOR: usize = 12;

    pub const MUTEX: usize = 8;

    pub const THREAD: usize = 4;

    pub const PICTURE: usize = 296;
}

// Where the mutex records begin.
pub fn mutexes_at(p: u8) -> usize
    ensures { result ≡ mutexes_at p }
{
    Width::HEADER + Width::PROCESSOR * (p as usize)
}

// Where the thread records begin.
pub fn threads_at(p: u8, m: u8) -> usize
    ensures { result ≡ threads_at p m }
{
    mutexes_at(p) + Width::MUTEX * (m as usize)
}

// How long a picture is.
pub fn picture_bytes(p: u8, t: u8, m: u8) -> usize
    ensures { result ≡ picture_bytes p t m }
{
    threads_at(p, m) + Width::THREAD * (t as usize)
}
