ghost use Rattle.std.specs.Prelude.{◌++◌, ◌≤◌, length, vec_capacity, vec_len};
ghost use Rattle.std.proofs.Common.{lit<};
ghost use Rattle.charmlet_pup.specs.Fields.{byte_list, flag_bytes, reads_byte_list, reads_flag, reads_then, reads_u8, reads_u16, reads_u32, reads_u64, reads_words, u8_bytes, u16_bytes, u32_bytes, u64_bytes, words_bytes};
ghost use Rattle.charmlet_pup.specs.ReadsBack.{ReadsBack-byte_list, ReadsBack-flag, ReadsBack-then, ReadsBack-u8, ReadsBack-u16, ReadsBack-u32, ReadsBack-u64, ReadsBack-words};
ghost use Rattle.charmlet_pup.specs.Visit.{AnyRoom, RoomForBytes, RoomForWords, RoomThen};

use charmlet_pup::{Er, Pup, PupFault, pack, packed_values_are_read, size_of, unpack};
use std::alloc::Global;
use std::process::Abort;

// A field of every sort.
#[derive(Drop)]
struct Sample {
    narrow: u8,
    short: u16,
    wide: u32,
    long: u64,
    is_open: bool,
    words: Vec<u64>,
    name: Vec<u8>,
    ghost few_words: { vec_len words ≤ 64 },
    ghost short_name: { vec_len name ≤ 16 },
}

impl Pup for Sample {
    ghost bytes = { λ s. u8_bytes s.narrow
        ++ (u16_bytes s.short ++ (u32_bytes s.wide
        ++ (u64_bytes s.long ++ (flag_bytes s.is_open
        ++ (words_bytes s.words.items ++ byte_list s.name.items))))) };

    ghost reads = { reads_then reads_u8
        (reads_then reads_u16 (reads_then reads_u32
        (reads_then reads_u64 (reads_then reads_flag
        (reads_then (reads_words 64) (reads_byte_list 16)))))) };

    ghost keeps_limits = { λ s. (length s.words.items ≤ 64) × (length s.name.items ≤ 16) };

    ghost has_room = { λ s. RoomThen reads_u8 AnyRoom
        (RoomThen reads_u16 AnyRoom (RoomThen reads_u32 AnyRoom
        (RoomThen reads_u64 AnyRoom (RoomThen reads_flag AnyRoom
        (RoomThen (reads_words 64) (RoomForWords (vec_capacity s.words))
        (RoomForBytes (vec_capacity s.name))))))) };

    fn pup(&mut self, er: &mut Er<'_>) -> Result<(), PupFault> {
        er.u8(&mut self.narrow)?;
        er.u16(&mut self.short)?;
        er.u32(&mut self.wide)?;
        er.u64(&mut self.long)?;
        er.flag(&mut self.is_open)?;
        er.words(&mut self.words, 64)?;
        er.bytes(&mut self.name, 16)
    }

    ghost reads_back = { λ s within. ReadsBack-then _ _ _ _ (ReadsBack-u8 s.narrow)
        (ReadsBack-then _ _ _ _ (ReadsBack-u16 s.short)
        (ReadsBack-then _ _ _ _ (ReadsBack-u32 s.wide)
        (ReadsBack-then _ _ _ _ (ReadsBack-u64 s.long)
        (ReadsBack-then _ _ _ _ (ReadsBack-flag s.is_open)
        (ReadsBack-then _ _ _ _ (ReadsBack-words 64 s.words.items within.0 (lit< tt))
        (ReadsBack-byte_list 16 s.name.items within.1 (lit< tt))))))) };
}

// A number, a mark, and a label of at most 16 bytes.
#[derive(Drop)]
struct Parcel {
    number: u32,
    is_sealed: bool,
    label: Vec<u8>,
    ghost short_label: { vec_len label ≤ 16 },
}

impl Pup for Parcel {
    ghost bytes = { λ p. u32_bytes p.number
        ++ (flag_bytes p.is_sealed ++ byte_list p.label.items) };

    ghost reads = { reads_then reads_u32 (reads_then reads_flag (reads_byte_list 16)) };

    ghost keeps_limits = { λ p. length p.label.items ≤ 16 };

    ghost has_room = { λ p. RoomThen reads_u32 AnyRoom
        (RoomThen reads_flag AnyRoom (RoomForBytes (vec_capacity p.label))) };

    fn pup(&mut self, er: &mut Er<'_>) -> Result<(), PupFault> {
        er.u32(&mut self.number)?;
        er.flag(&mut self.is_sealed)?;
        er.bytes(&mut self.label, 16)
    }

    ghost reads_back = { λ p short. ReadsBack-then _ _ _ _ (ReadsBack-u32 p.number)
        (ReadsBack-then _ _ _ _ (ReadsBack-flag p.is_sealed)
        (ReadsBack-byte_list 16 p.label.items short (lit< tt))) };
}

// The bytes are these.
fn are_bytes(rt: &impl Abort, found: &[u8], wanted: &[u8]) {
    assert_eq!(rt; found, wanted);
}

// The words are these.
fn are_words(rt: &impl Abort, found: &[u64], wanted: &[u64]) {
    assert_eq!(rt; found, wanted);
}

// The number is this one.
fn is_number(rt: &impl Abort, found: u64, wanted: u64) {
    assert_eq!(rt; found, wanted);
}

// The mark is set.
fn is_set(rt: &impl Abort, mark: bool) {
    assert!(rt; mark);
}

// The value packs to `size` bytes.
fn has_size<P: Pup>(rt: &impl Abort, value: &mut P, size: usize) {
    assert_eq!(rt; size_of(value), size);
}

// The value packs to these bytes.
fn packs_to<P: Pup>(rt: &(impl AllocGlobal + Abort), value: &mut P, packed: &[u8]) {
    let mut bytes = Vec::new(rt.alloc());
    packs_into(rt, value, &mut bytes);
    are_bytes(rt, &bytes, packed);
}

// The value is packed behind the bytes.
fn packs_into<P: Pup>(rt: &impl Abort, value: &mut P, bytes: &mut Vec<u8>) {
    assert!(rt; pack(value, bytes).is_ok());
}

// The value takes what these bytes say.
fn takes<P: Pup>(rt: &impl Abort, value: &mut P, bytes: &[u8]) {
    assert!(rt; unpack(value, bytes).is_ok());
}

// The bytes have this fault.
fn has_fault<P: Pup>(rt: &impl Abort, value: &mut P, bytes: &[u8], fault: PupFault) {
    let found = unpack(value, bytes).err().expect(rt, "a fault");
    assert_eq!(rt; found, fault);
}

// A sample with nothing in it.
fn blank(alloc: Global) -> Sample {
    Sample {
        narrow: 0,
        short: 0,
        wide: 0,
        long: 0,
        is_open: false,
        words: Vec::new(alloc),
        name: Vec::new(alloc),
    }
}

// The sample has these numbers, and its mark is set.
fn has_numbers(rt: &impl Abort, sample: &Sample) {
    is_number(rt, u64::from(sample.narrow), 0xab);
    is_number(rt, u64::from(sample.short), 0x1234);
    is_number(rt, u64::from(sample.wide), 0x89ab_cdef);
    is_number(rt, sample.long, 5);
    is_set(rt, sample.is_open);
}

// The sample has the one word 7 and the name hi.
fn has_lists(rt: &impl Abort, sample: &Sample) {
    are_words(rt, sample.words.as_slice(), &[7]);
    are_bytes(rt, sample.name.as_slice(), b"hi");
}

#[test]
fn one_routine_serves_all_modes(rt: HostRuntime) {
    let packed = [
        0xabu8, 0x34, 0x12, 0xef, 0xcd, 0xab, 0x89, 5, 0, 0, 0, 0, 0, 0, 0, 1, 1, 0, 0, 0, 7, 0, 0,
        0, 0, 0, 0, 0, 2, 0, 0, 0, 0x68, 0x69,
    ];
    let mut sample = blank(rt.alloc());
    has_size(&rt, &mut sample, 24);
    takes(&rt, &mut sample, &packed);
    has_numbers(&rt, &sample);
    has_lists(&rt, &sample);
    has_size(&rt, &mut sample, 34);
    packs_to(&rt, &mut sample, &packed);
}

// The parcel has the number 7, is sealed, and has the label tea.
fn is_tea(rt: &impl Abort, parcel: &Parcel) {
    is_number(rt, u64::from(parcel.number), 7);
    is_set(rt, parcel.is_sealed);
    are_bytes(rt, parcel.label.as_slice(), b"tea");
}

// The bytes have this fault, and leave the parcel as long as it was.
fn leaves_parcel(rt: &impl Abort, parcel: &mut Parcel, bytes: &[u8], fault: PupFault) {
    has_fault(rt, parcel, bytes, fault);
    has_size(rt, parcel, 12);
}

#[test]
fn parcels_pack_to_their_fields(rt: HostRuntime) {
    let packed = [7u8, 0, 0, 0, 1, 3, 0, 0, 0, 0x74, 0x65, 0x61];
    let mut parcel = Parcel {
        number: 0,
        is_sealed: false,
        label: Vec::new(rt.alloc()),
    };
    takes(&rt, &mut parcel, &packed);
    is_tea(&rt, &parcel);
    has_size(&rt, &mut parcel, 12);
    packs_to(&rt, &mut parcel, &packed);
    leaves_parcel(&rt, &mut parcel, &packed[..3], PupFault::Short);
    leaves_parcel(&rt, &mut parcel, &[7, 0, 0, 0, 2], PupFault::BadFlag);
    let too_many = [7, 0, 0, 0, 1, 17, 0, 0, 0];
    leaves_parcel(&rt, &mut parcel, &too_many, PupFault::TooMany);
    packed_values_are_read::<Parcel>();
}
