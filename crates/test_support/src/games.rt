//! Games between other programs, by their moves, each by a call: what names one itself is proved with its text.

/// Fairy-Stockfish to depth 9 against itself to depth 7, from 2g2f 3c3d on: White is mated.
pub fn first() -> &'static [&'static str] {
    &FIRST
}

/// Fairy-Stockfish to depth 8 against itself, from 5g5f 5c5d on: Black is mated.
pub fn second() -> &'static [&'static str] {
    &SECOND
}

/// GNU Shogi, a second a move, against Fairy-Stockfish to depth 5: Black is mated.
pub fn third() -> &'static [&'static str] {
    &THIRD
}

const FIRST: [&str; 101] = [
    "2g2f", "3c3d", "6i6h", "3a3b", "7g7f", "2b8h", "7i8h", "B*6e", "B*2b", "6e4g+", "3i3h",
    "4g6e", "2b1a+", "2a3c", "8h7g", "7c7d", "6g6f", "6e5d", "3h4g", "7d7e", "L*5f", "5d6d",
    "7f7e", "6d7e", "P*7f", "7e6d", "1a2b", "8b5b", "5i6i", "5c5d", "2b1c", "5d5e", "1c4f", "6a6b",
    "6i7i", "5a6a", "2f2e", "6b7c", "2e2d", "2c2d", "5f5e", "5b5e", "P*4b", "4a5a", "4f5e", "6d5e",
    "R*3a", "B*1d", "4g5f", "P*7h", "7i7h", "5e5d", "2h2d", "3b2c", "2d1d", "2c1d", "4b4a+",
    "5a5b", "4a4b", "6a7b", "4b5b", "7b8b", "5b6a", "5d5c", "3a5a+", "R*5b", "5a5b", "5c5b",
    "6a7a", "R*2b", "B*6a", "5b6b", "G*7b", "7c7b", "7a7b", "6b7b", "6a7b+", "2b7b", "S*6a",
    "7b2b", "G*7b", "2b7b", "6a7b+", "8b7b", "R*2b", "L*3b", "2b3b", "P*5b", "3b5b+", "B*6b",
    "B*6a", "7b7c", "R*7b", "7c8d", "7b7e+", "8d9d", "7e7d", "6b8d", "6a8c", "9d9e", "9g9f",
];

const SECOND: [&str; 116] = [
    "5g5f", "5c5d", "1g1f", "8b5b", "6i6h", "6a6b", "4g4f", "5d5e", "5f5e", "5b5e", "2h5h", "5e5h",
    "4i5h", "R*5d", "7g7f", "3c3d", "8h2b", "3a2b", "B*6e", "5d5b", "6e4c+", "B*7d", "R*2h",
    "4a3b", "4c3d", "7d6e", "3d5b", "6b5b", "R*8e", "B*7d", "8e6e", "7d6e", "P*5e", "7a6b", "B*8b",
    "R*9b", "8b9a", "9b9a", "L*5d", "P*5c", "8i7g", "6e7f", "5d5c", "6b5c", "5i4i", "5c6d", "5h5g",
    "B*7d", "7i7h", "6d5e", "P*7e", "7d2i+", "2h2i", "P*5f", "5g4g", "N*3e", "4g4h", "P*4g",
    "4h3h", "5e4f", "B*8b", "9a9b", "8b7a+", "5f5g+", "4i5i", "P*5f", "P*5h", "5g6h", "5i6h",
    "L*5e", "3i4h", "4g4h+", "3h4h", "3e4g+", "6h7i", "4g4h", "7a8a", "G*6h", "7i6h", "5f5g+",
    "5h5g", "G*8h", "7g8e", "7f6e", "5g5f", "6e5f", "2i8i", "8h8i", "8a9b", "R*5h", "6h7g", "S*7f",
    "7g7f", "5h7h+", "7f8f", "5f6g+", "S*6b", "5b6b", "R*8a", "S*6a", "P*5b", "5a5b", "G*5a",
    "5b5a", "P*5b", "5a5b", "P*5c", "5b5c", "P*5d", "5c5d", "N*6f", "5d4e", "8f9f", "S*9d", "8a8c",
    "G*9e",
];

const THIRD: [&str; 70] = [
    "7g7f", "8b4b", "4g4f", "1c1d", "4i5h", "3c3d", "2g2f", "9c9d", "2f2e", "1d1e", "5g5f", "2b3c",
    "3g3f", "3c8h", "7i8h", "B*2b", "8i7g", "7a7b", "B*8b", "9a9c", "8b9a+", "2b1c", "5h4g",
    "1c2b", "9a9b", "6c6d", "2e2d", "2c2d", "7g8e", "1e1f", "8e9c", "1f1g+", "2h5h", "P*1h",
    "L*2c", "2b4d", "2c2a+", "1h1i+", "2a3a", "4a3a", "S*4e", "4d8h", "5h8h", "1i2i", "N*2c",
    "S*7g", "8h5h", "3a2b", "2c1a+", "2i3i", "9c8a+", "S*3h", "5i4h", "L*6e", "B*3a", "6e6g+",
    "5h9h", "L*6e", "8a8b", "1g2g", "L*5b", "4b5b", "N*6c", "7b6c", "6i5i", "3h4g", "4h3i", "L*3h",
    "9h3h", "2g3h",
];
