// Tables of small programs, worked out by hand from the format, and read back from an image.
mod image;
mod inlined;
mod least;
mod shared;
