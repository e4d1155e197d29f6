// The formats of a shape file: a letter, the number of points, and as many bytes for each point as the format has.
ghost use Rattle.std.specs.Prelude.{◌≡◌, ℕ, ◌*◌, ◌≤◌, length, MatchOption, MatchResult};
ghost use Rattle.shape.specs.Formats.{Format, bytes_a_point, points_of, body_of, OtherLetter, Flawed, Tabled, Sound, Defines, Refuses};
ghost use Rattle.shape.specs.Tables.{of_links};
ghost use Rattle.shape.specs.Sources.{of_neighbours};

use crate::header::sized;
use crate::links::Links;
use crate::neighbours::Neighbours;
use crate::points::PointCount;
use crate::refusal::Refusal;

pub(crate) trait FileFormat {
    ghost format: { Format };

    ghost BYTES_A_POINT: { ℕ };

    const BYTES_A_POINT: usize;

    // The number of points and the bytes after it, of a file that begins with the format's letter, which the pattern that takes it apart has.
    fn parts(file: &[u8]) -> Option<(u8, &[u8])>
        ensures { MatchOption result (OtherLetter format file.now) (λ parts. (OtherLetter format file.now → ⊥) × (parts.0 ≡ points_of file.now) × (parts.1.now ≡ body_of file.now)) };

    // The table that the bytes after the header define.
    fn table(points: PointCount, bytes: &[u8]) -> Result<Links, Refusal>
        requires { length bytes.now ≡ bytes_a_point format * points.count }
        ensures { MatchResult result (λ l. Tabled format points.count bytes.now (of_links l)) (Flawed format points.count bytes.now) };

    ghost its_bytes: { BYTES_A_POINT ≡ bytes_a_point format };
}

// The neighbours that a file's bytes define.
pub(crate) fn described<F: FileFormat>(file: &[u8]) -> Result<Neighbours, Refusal>
    ensures { MatchResult result (λ t. Sound F.format file.now × Defines F.format file.now (of_neighbours t)) (λ e. (Sound F.format file.now → ⊥) × Refuses F.format file.now e) }
{
    let Some((points, body)) = F::parts(file) else {
        return Err(Refusal::NotAShape);
    };
    let points = sized(points, body, F::BYTES_A_POINT)?;
    let links = F::table(points, body)?;
    Ok(Neighbours::of(links))
}
