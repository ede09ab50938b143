// Points and boxes.

/// A place on the earth: x is the longitude and y the latitude, in units of 10^-7 degree.
#[derive(Clone, Copy, Debug, PartialEq, Eq)]
pub struct Point {
    pub x: i32,
    pub y: i32,
}

/// A closed box: the points from the low corner to the high one in both coordinates.
#[derive(Clone, Copy, Debug, PartialEq, Eq)]
pub struct Box2 {
    pub low: Point,
    pub high: Point,
}
