// The numbers of box types, each beside its four letters.
// Numbers and no enum: document 01 decides over box type numbers on each path, the index writes any type, and a type that no rule names has no name.

pub const FTYP: u32 = 0x66747970; // ftyp

pub const MOOV: u32 = 0x6d6f6f76; // moov

pub const MVHD: u32 = 0x6d766864; // mvhd

pub const TRAK: u32 = 0x7472616b; // trak

pub const TKHD: u32 = 0x746b6864; // tkhd

pub const EDTS: u32 = 0x65647473; // edts

pub const ELST: u32 = 0x656c7374; // elst

pub const MDIA: u32 = 0x6d646961; // mdia

pub const MDHD: u32 = 0x6d646864; // mdhd

pub const HDLR: u32 = 0x68646c72; // hdlr

pub const ELNG: u32 = 0x656c6e67; // elng

pub const MINF: u32 = 0x6d696e66; // minf

pub const VMHD: u32 = 0x766d6864; // vmhd

pub const SMHD: u32 = 0x736d6864; // smhd

pub const STHD: u32 = 0x73746864; // sthd

pub const DINF: u32 = 0x64696e66; // dinf

pub const DREF: u32 = 0x64726566; // dref

pub const STBL: u32 = 0x7374626c; // stbl

pub const STSD: u32 = 0x73747364; // stsd

pub const STTS: u32 = 0x73747473; // stts

pub const STSC: u32 = 0x73747363; // stsc

pub const STSZ: u32 = 0x7374737a; // stsz

pub const STCO: u32 = 0x7374636f; // stco

pub const MVEX: u32 = 0x6d766578; // mvex

pub const TREX: u32 = 0x74726578; // trex

pub const MOOF: u32 = 0x6d6f6f66; // moof

pub const MFHD: u32 = 0x6d666864; // mfhd

pub const TRAF: u32 = 0x74726166; // traf

pub const TFHD: u32 = 0x74666864; // tfhd

pub const TFDT: u32 = 0x74666474; // tfdt

pub const TRUN: u32 = 0x7472756e; // trun

pub const MDAT: u32 = 0x6d646174; // mdat
