//! Hosts in a grid.
ghost use Rattle.std.specs.Prelude.{◌≡◌};
ghost use Rattle.cusp_rules.specs.Hosts.{IsHostCount};
ghost use Rattle.edge_owner.specs.Grid.{IsGrid, columns_of};

/// The columns of the grid of so many hosts, up to 64. They are asked for at each edge, so they stand
/// here ready. There is no grid of no hosts.
static COLUMNS: [u16; 65] = [
    0, 1, 2, 3, 2, 5, 3, 7, 4, 3, 5, 11, 4, 13, 7, 5, 4, 17, 6, 19, 5, 7, 11, 23, 6, 5, 13, 9, 7,
    29, 6, 31, 8, 11, 17, 7, 6, 37, 19, 13, 8, 41, 7, 43, 11, 9, 23, 47, 8, 7, 10, 17, 13, 53, 9,
    11, 8, 19, 29, 59, 10, 61, 31, 9, 8,
];

/// The columns of the grid of 1 to 64 hosts.
pub fn columns(hosts: u16) -> u16
    requires { IsHostCount hosts }
    ensures { result ≡ columns_of hosts }
{
    COLUMNS[usize::from(hosts)]
}

/// The rows and the columns of the grid in which 1 to 64 hosts stand: of the grids that have one host
/// in each place, and at least as many columns as rows, the one with the fewest columns
/// (the Cartesian cut of CuSP, IPDPS 2019).
pub fn grid(hosts: u16) -> (u16, u16)
    requires { IsHostCount hosts }
    ensures grid { IsGrid hosts result.0 result.1 }
    ensures columns { result.1 ≡ columns_of hosts }
{
    let columns = columns(hosts);
    (hosts / columns, columns)
}
