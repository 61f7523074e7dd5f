// One slice out of rows of numbers.
ghost use Rattle.std.specs.Prelude.{◌≡◌};
ghost use Rattle.rows.specs.Rows.{read_range, read_slice};

use slice::{KRange, SviSlice};

pub fn read_range(row: &[f64; 2]) -> KRange
    ensures { result ≡ read_range row.now }
{
    KRange {
        lo: row[0],
        hi: row[1],
    }
}

pub fn read_slice(row: &[f64; 8]) -> SviSlice
    ensures { result ≡ read_slice row.now }
{
    SviSlice {
        tau: row[0],
        a: row[1],
        b: row[2],
        rho: row[3],
        m: row[4],
        sigma: row[5],
        k_range: KRange {
            lo: row[6],
            hi: row[7],
        },
    }
}
