// The file at a path.
ghost use Rattle.std.specs.Prelude.{◌≤◌, IfSome};
ghost use Rattle.image.specs.Files.{bytes_of, files_of};
ghost use Rattle.links.specs.Sets.{Found, FoundFile};

use image::{File, Image};

// The file at this path and its number, if there is one.
pub fn find_file<'a>(image: &Image<'a>, path: &[u8]) -> Option<(usize, File<'a>)>
    ensures found { FoundFile (bytes_of image.now) (files_of image.now) path.now result }
    ensures few { IfSome result (λ p. p.0 ≤ 256) }
{
    let (before, file) = image
        .files()
        .enumerate()
        .find(|(_, file)| file.path == path)?;
    Some((before + 1, file))
}

// The number of the file at this path, if there is one. Public; no code here calls it.
pub fn find(image: &Image<'_>, path: &[u8]) -> Option<usize>
    ensures found { Found (bytes_of image.now) (files_of image.now) path.now result }
    ensures few { IfSome result (λ number. number ≤ 256) }
{
    find_file(image, path).map(|(number, _)| number)
}
