// Theorems: each is the contract of a function that does nothing else.
ghost use Rattle.layout.specs.Bytes.{RoundTrip, CleanLaw, FilledLaw};
ghost use Rattle.layout.specs.EditLaws.{LeafLaw, InnerLaw};
ghost use Rattle.layout.specs.Examples.{Examples};
ghost use Rattle.layout.specs.Heads.{HeaderLaw};

// What is encoded is decoded again; a page that is decoded is encoded again, just when its zeros are zero.
pub fn pages_stand() -> u8
    ensures trip { RoundTrip }
    ensures clean { CleanLaw }
    ensures filled { FilledLaw }
{
    0
}

// A proper header is decoded from its encoding.
pub fn headers_stand() -> u8
    ensures { HeaderLaw }
{
    0
}

// What the edits of a leaf and of an inner page do to keys and regions.
pub fn edits_stand() -> u8
    ensures leaf { LeafLaw }
    ensures inner { InnerLaw }
{
    0
}

// Worked encodings, byte by byte.
pub fn examples_stand() -> u8
    ensures { Examples }
{
    0
}
