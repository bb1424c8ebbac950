// A point: four coordinates, of which a space uses the first n. It is laid out as in C.
#[repr(C)]
#[derive(Clone, Copy, PartialEq, Eq, Debug)]
pub struct Point {
    pub coords: [u16; 4],
}
