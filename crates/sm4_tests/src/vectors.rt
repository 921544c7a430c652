//! Vectors made with an independent implementation (Python's `cryptography`, whose SM4 is OpenSSL's). Blocks are written as
//! numbers, the first octet the highest.

/// A block under a key.
#[derive(Clone, Copy)]
pub struct BlockCase {
    pub key: u128,
    pub plain: u128,
    pub coded: u128,
}

/// Two blocks in CBC mode.
#[derive(Clone, Copy)]
pub struct PairCase {
    pub key: u128,
    pub iv: u128,
    pub plain: [u128; 2],
    pub coded: [u128; 2],
}

/// A text of many blocks in CBC mode. The text has octet `7 i + 13 (i / 256) + seed` at place i; what comes out is told by a
/// fold over its blocks: the fold so far rotated left by one bit, xor the block.
#[derive(Clone, Copy)]
pub struct TextCase {
    pub key: u128,
    pub iv: u128,
    pub blocks: usize,
    pub seed: u8,
    pub encrypted: u128,
    pub decrypted: u128,
}

/// The first is the standard's example.
pub const BLOCKS: [BlockCase; 48] = [
    BlockCase {
        key: 0x0123456789abcdeffedcba9876543210,
        plain: 0x0123456789abcdeffedcba9876543210,
        coded: 0x681edf34d206965e86b3e94f536e4246,
    },
    BlockCase {
        key: 0x00000000000000000000000000000000,
        plain: 0x00000000000000000000000000000000,
        coded: 0x9f1f7bff6f5511384d9430531e538fd3,
    },
    BlockCase {
        key: 0xffffffffffffffffffffffffffffffff,
        plain: 0xffffffffffffffffffffffffffffffff,
        coded: 0xedb119f8455fd2327ad6fbedcb5b4f5d,
    },
    BlockCase {
        key: 0x00000000000000000000000000000000,
        plain: 0xffffffffffffffffffffffffffffffff,
        coded: 0x61eb6915e56e4e80b5048d06ac8fe3a9,
    },
    BlockCase {
        key: 0xffffffffffffffffffffffffffffffff,
        plain: 0x00000000000000000000000000000000,
        coded: 0xe28f2c531ed6183dd16487c1614710e6,
    },
    BlockCase {
        key: 0x000102030405060708090a0b0c0d0e0f,
        plain: 0x101112131415161718191a1b1c1d1e1f,
        coded: 0xa73851aa4341e968c71dd8a3a0c8497c,
    },
    BlockCase {
        key: 0x00000000000000000000000000000001,
        plain: 0x00000000000000000000000000000000,
        coded: 0xe950b28d5c7f2085725270588d6ed3be,
    },
    BlockCase {
        key: 0x00000000000000000000000000000000,
        plain: 0x00000000000000000000000000000001,
        coded: 0x232f0cfe308b49ea6fc88229b5dc858d,
    },
    BlockCase {
        key: 0x00000000000000000000000000000080,
        plain: 0x00000000000000000000000000000000,
        coded: 0x51c0f96f261cd61b73109bccd6ad18c5,
    },
    BlockCase {
        key: 0x00000000000000000000000000000000,
        plain: 0x00000000000000000000000000000080,
        coded: 0x9b26613880f7bcb25da1254401803046,
    },
    BlockCase {
        key: 0x00000000000000010000000000000000,
        plain: 0x00000000000000000000000000000000,
        coded: 0x4346367dea1adc5fe869d299315ae86e,
    },
    BlockCase {
        key: 0x00000000000000000000000000000000,
        plain: 0x00000000000000010000000000000000,
        coded: 0x799776a4927f8a0399034c1390630c13,
    },
    BlockCase {
        key: 0x80000000000000000000000000000000,
        plain: 0x00000000000000000000000000000000,
        coded: 0xf8536c64aecf6fa98e348ab2c2474b59,
    },
    BlockCase {
        key: 0x00000000000000000000000000000000,
        plain: 0x80000000000000000000000000000000,
        coded: 0x4da36ee207e092a8979043e396c05bb6,
    },
    BlockCase {
        key: 0x7b90b736e25971e4fe1dabf1d872e76c,
        plain: 0xb059cf3ced0fc699ec84ad7262f20b39,
        coded: 0xe1fe30a0a0f48ffe61676e0328e7e5fb,
    },
    BlockCase {
        key: 0xa7409144e8b5d7b8c1b94bd00b5ed644,
        plain: 0x8c9b3d6a36164c4635288df14f18c4cc,
        coded: 0xc605c36967b5bf5f115f669367527bbc,
    },
    BlockCase {
        key: 0x1d549d355c820d7a1757d0e1f404cf0d,
        plain: 0x3fc637caf4dfc801ef176e6c2ef752e8,
        coded: 0xf13ea31af1274b33196665467bd660c0,
    },
    BlockCase {
        key: 0xddb6b1e9eed6510c5990912a1c8f74de,
        plain: 0x07da965f02d557cedba7d7661f595ac2,
        coded: 0x39d4aedf9e5a537ff1db71224788d054,
    },
    BlockCase {
        key: 0x1884f5427825cbb784c879045e797456,
        plain: 0xdb7a7d6af447cfcd52fb722c267da4d0,
        coded: 0xb41d9b98ebcbc41ac3a47e1f57be7f3a,
    },
    BlockCase {
        key: 0xb05f2c7c5b5b8e4132f0a2e6a8bb383b,
        plain: 0x3ef5b0379a62dd45f51e69e65fd520e7,
        coded: 0xdc572e435a5a6ff6a34498e09c1ff4a9,
    },
    BlockCase {
        key: 0x3706f6c8d2b8b1a47ba0b428acb09502,
        plain: 0x693721211e04cfae7f3431c0a81a4c98,
        coded: 0x1c19891b1dae30be5cd4c558656c662c,
    },
    BlockCase {
        key: 0x12a19deb9e66303c0903570210bd17d4,
        plain: 0xa2b1c30dfcda1fb9f029a10554e9fc3d,
        coded: 0xc960457fedac8513f61fa38ac6304cfe,
    },
    BlockCase {
        key: 0x792ba9a9f3d89ff1bb0f3426a46a55ac,
        plain: 0x3330d895ebb6d529a4c515ba89cd8c98,
        coded: 0xa86ea8aea064e3579717d57d606c189b,
    },
    BlockCase {
        key: 0xe7d1d24744922172357145ae993ff1a8,
        plain: 0xf03ffa705d50f5898a22223ddc85db4a,
        coded: 0xf92fbe27007dc5ea6062583fe1bbec4e,
    },
    BlockCase {
        key: 0xa9e8532f40f0b8cebf22fdd9e2309ffa,
        plain: 0x5975bcd83948ee837ad796ab08cde35a,
        coded: 0xa87d1743548996e2b19cf179a8f9870a,
    },
    BlockCase {
        key: 0x7e0d59953cf98d7f6d2cc5afe4341bb4,
        plain: 0xd6c80781a0aeafcc59da03f7c0b93e89,
        coded: 0x3589fb3ceb9dd7fbcb1d939d24c2e75b,
    },
    BlockCase {
        key: 0xb74bb2ce89d6689cef4fb82b3c5b8d18,
        plain: 0x0416b9b3a02123e438b89cfa37cd871e,
        coded: 0xb116a3efe1367cc0606e1230a9525608,
    },
    BlockCase {
        key: 0x9ab878137ee4da6c6fafb540e8c0361c,
        plain: 0x0e38a3427bb9c9ba96d6c7693b370ddc,
        coded: 0xa386d7d77277ed96f966063d0d4a2aee,
    },
    BlockCase {
        key: 0x1eb8e8b367f8a7a7e5181a58867386bd,
        plain: 0x61b3933af8209f81c9f6e740e50f5f0f,
        coded: 0xda1f9dfd8cb023d58bf1962d95bb31f1,
    },
    BlockCase {
        key: 0xdcdd9bd2e0f3b65fad9191f95c4cb6ef,
        plain: 0x728e276d44334086e94d104a2a94812a,
        coded: 0x86765ea2a914c9384250b9c82cf90834,
    },
    BlockCase {
        key: 0x88689dcae9b9c2680cd12f1ebc910557,
        plain: 0xb2dbcf927f970d0e421edc893e959b7e,
        coded: 0x6325718b40b536d06644f0ca751acea1,
    },
    BlockCase {
        key: 0x4c8f07d69c8cd1226808c3e03b3f6455,
        plain: 0x50aaa94127ca7e15232714ebe0d0eae3,
        coded: 0x83a7cee5db9515e4d53b6a5844a24e4b,
    },
    BlockCase {
        key: 0x89e9b2c22f0ff8eef051ae0346a1eeb6,
        plain: 0x6a03e7a569b10cdfece88051a9184a60,
        coded: 0x70947021db0b523ac53839585ab53f77,
    },
    BlockCase {
        key: 0x55580355987a23139753dc0bf3506584,
        plain: 0x59c54d1ed57392a5bee3344e33962981,
        coded: 0xfe8b55d82801433cf38ee9f8afb88a49,
    },
    BlockCase {
        key: 0x3e1f1e4deaea43b9e5b2dca3cc1d818b,
        plain: 0x0b2935982ea8e7e7dfdf378f3499efd0,
        coded: 0x3fd6d290ac340f17fb1a889ba224307c,
    },
    BlockCase {
        key: 0x53c88bbcb8e51dac7eddf0afbb6610ec,
        plain: 0xd2e8842004b139e555fcf45b52f117b8,
        coded: 0x535c6457a0b47a1da1e1423d3893d87a,
    },
    BlockCase {
        key: 0x6c93f6c2790301878049bc08bcaa57c8,
        plain: 0x98659d27b57d966969ae59a0e950b549,
        coded: 0x99c95697a58973b3e530367fb4a44ef7,
    },
    BlockCase {
        key: 0x0a847495b370adb529170afda9071401,
        plain: 0x06c50ad50f3c6bd7e121690677536a3e,
        coded: 0x558a2c67654530d88b1689c169c4d277,
    },
    BlockCase {
        key: 0x0f9cc80800bcaa6b817991a2ef4f4673,
        plain: 0xdb7ec9ba479309efab46ec729b449339,
        coded: 0x8b668245a40a5968821b53efd0bfe8a9,
    },
    BlockCase {
        key: 0x244bbfaa88fde308736b556f56a326aa,
        plain: 0xc0abfd2230228f2886676150aff1975d,
        coded: 0x2b4fae6e164cb089cdf22e4e3709966c,
    },
    BlockCase {
        key: 0x1005c6be362c785e4aed42de00518cb2,
        plain: 0xa6b57579d48e71596964f614b79f03f3,
        coded: 0xfa60d69ef5d321c6400ac1967deec0bc,
    },
    BlockCase {
        key: 0x9efd97cea58a1bc1bb531506ae7fd495,
        plain: 0x9477bc8e21d75671fe97e7c4553da999,
        coded: 0x0b5ba09091a504c6dde398aaebc12b4e,
    },
    BlockCase {
        key: 0x6b0033b1509634358d2757051715483b,
        plain: 0xc609141d8c5056b711c81b6f4c0c7816,
        coded: 0xfddaa8f5d77538fad1549e762e1bf74c,
    },
    BlockCase {
        key: 0x3a509a19437d5a67493d72538e8bd390,
        plain: 0xc6bf721c553b165aa9f3b8ab2e69d9b1,
        coded: 0xfe5a2dccf90d72b3b8f1f730d2d8fd1c,
    },
    BlockCase {
        key: 0x0f7ae71fb1e20b61624c24ceeb1f8d46,
        plain: 0x2d4e2d68a06bbd82bb59943640f8cd36,
        coded: 0xc2cdc011ec36458184960cc309752324,
    },
    BlockCase {
        key: 0x5646693754eb1df7e93d763252025b42,
        plain: 0x004c06842a18d85358df9eaed3ddde4a,
        coded: 0xe87109d3d707a3079e135638a63c3b80,
    },
    BlockCase {
        key: 0xb03b6dc619cf614feb24074b4047e63d,
        plain: 0x52622245d6d76a529cb45500e88c4bb2,
        coded: 0x71183c0f4c0b7fa353dc101551e94cb5,
    },
    BlockCase {
        key: 0x48bde252bc36e6bfc44f5138967b08a8,
        plain: 0x1c791780ff07b19e06d539efcf45592a,
        coded: 0xddf1f8663f8a2967be4a7da58f498dbb,
    },
];

pub const PAIRS: [PairCase; 12] = [
    PairCase {
        key: 0x0123456789abcdeffedcba9876543210,
        iv: 0x000102030405060708090a0b0c0d0e0f,
        plain: [
            0xaaaaaaaabbbbbbbbccccccccdddddddd,
            0xeeeeeeeeffffffffaaaaaaaabbbbbbbb,
        ],
        coded: [
            0x78ebb11cc40b0a48312aaeb2040244cb,
            0x4cb7016951909226979b0d15dc6a8f6d,
        ],
    },
    PairCase {
        key: 0x38cb4f6a21f74a582fe37bb56260b3e7,
        iv: 0x636ac006870742615e6df0cf9836a392,
        plain: [
            0x1e66d7098a3e0a19a087d6d878343029,
            0x0847ba3abeb8cd619ac28b7c7a05fabe,
        ],
        coded: [
            0x83ad3b342cdbce5374e974c3683480d5,
            0x559d288819a42054578938987e194f12,
        ],
    },
    PairCase {
        key: 0x95d0c7469671181db57336b6d022d874,
        iv: 0xab85c910ac83579d6afacd3b4513b73e,
        plain: [
            0x7ded4aa8cde3db155462b9b5cadf10be,
            0x77c9bf04ef069c026d8829dd40ca42de,
        ],
        coded: [
            0x06633c52b17f28d680616b137a5f1c9f,
            0x62ad9ef0bce8a853ad9927d1cc4e2a00,
        ],
    },
    PairCase {
        key: 0xe6a711d63f2653fef7a337986fad6255,
        iv: 0x186a4d9e604194dbf0743862b71623b1,
        plain: [
            0x1854227e38d43e26f4ffdcaed7ac7e34,
            0x5ab3313af4b832393efef7a484c537f0,
        ],
        coded: [
            0x32184594f4dba3ab97a30bcbb0c74b02,
            0x0bf4763544c17780fa6ffee140c85bc7,
        ],
    },
    PairCase {
        key: 0x5d07eac603da78704d45f9b66ac7c7a1,
        iv: 0x94dc7ad4c41c24a24b0e6a481380a189,
        plain: [
            0xee9fc82127f4e48edf4d4db62550861e,
            0x83db3f789da176474492fff8c66c05bb,
        ],
        coded: [
            0xd49f51d9d5d43899797bc274b206e622,
            0x003b0e09f3c3f055ff56414c67ade13e,
        ],
    },
    PairCase {
        key: 0xf7193d83fd91303a35fc904237dd5b1e,
        iv: 0xd0abbe18cc0eb2ed914275cb39e8137d,
        plain: [
            0xea60fff09efc3dc9607d3c32c2b06c86,
            0x0bae1b6976ab03482fb1f43ff1bd7033,
        ],
        coded: [
            0x6e5a34158ca1f772131f17f8dab0b416,
            0x50539b74b9827f684532e9eb47dcf4de,
        ],
    },
    PairCase {
        key: 0x9732148f83df5ebb9dfdbfa66d6f6988,
        iv: 0xf2ac2c03628d04708404bece9e273532,
        plain: [
            0x707f3f331b2e01a4783272a22b0fa0a0,
            0x0f0935799d4b6ccd481e635aaf66973e,
        ],
        coded: [
            0x83bd3109eaf1f8262376ebcbad17b2a2,
            0x9a6bf41baef2e9ea7c8bdcaae9152661,
        ],
    },
    PairCase {
        key: 0x483db89f75873a105dd9dccc5e5f41c3,
        iv: 0xdf8d5fb2c829a2a66ca9a5ea64b7ab03,
        plain: [
            0x4edb28883de2cd430790a853bf6df3a0,
            0xdd7c37c6b4ba18343080d1de9564f42c,
        ],
        coded: [
            0x8651f2f683e84ef5ebb1c2a4bbd62036,
            0xfed14f90f73d478afae0d11f61e4abad,
        ],
    },
    PairCase {
        key: 0x7b35d49b92e2275b2d20cbd1b7de9fa3,
        iv: 0x03a354a3e077301d172d865753ef559e,
        plain: [
            0x0b720b07ccc27e702f76b547df6c8c35,
            0x6612146fca5171e21f694263f1b2e5f2,
        ],
        coded: [
            0x747538e352806a6f8b43f37ab7bf09c6,
            0x6e311e77413ae4930c11c5aa7757401a,
        ],
    },
    PairCase {
        key: 0xe8f26367c3660c7bcb2a46a1a36f77d6,
        iv: 0xdf1ae84e901654ba06f5ad0b437b3387,
        plain: [
            0x583e67ef641e217a2c5b01aeedf46655,
            0xc71662cbe127db95656483c183c65881,
        ],
        coded: [
            0xc292c5b50c962a1a91ceb9ab34e4907b,
            0x6277ff82b892812caeb9ee0bcefa690b,
        ],
    },
    PairCase {
        key: 0x5932e1c0f168d2162c375b3ac41b577a,
        iv: 0xb2f0ffc850f0011d67d38748f7229747,
        plain: [
            0x423f83963005f15269fee2a60e67ba34,
            0x54f1f02933222d9f511f05b929bbd558,
        ],
        coded: [
            0x960f0081717b892545902434d0f56fe1,
            0xaeaa3674a2785c4a4e3492ed4e670a46,
        ],
    },
    PairCase {
        key: 0xaa6f131a844ffeead1e08c520817a6a2,
        iv: 0x99215ed1fd21be6859df7f5bd68d53b5,
        plain: [
            0x82bc0eb573699575a923ce00d634bce8,
            0xd0079329ea6ace9c3eb11c46afbcc177,
        ],
        coded: [
            0x8cc9b85240f045a2083d5c4e8efee62f,
            0x7925c523314b43d0a324d55f12c293f0,
        ],
    },
];

pub const TEXTS: [TextCase; 14] = [
    TextCase {
        key: 0xeec74ea81e405d75f4120d6d2edde0b6,
        iv: 0xb674f2000e68dc6fc142b579d0673823,
        blocks: 0,
        seed: 0,
        encrypted: 0x00000000000000000000000000000000,
        decrypted: 0x00000000000000000000000000000000,
    },
    TextCase {
        key: 0x67e21801da8f5c10bc83a3a09daeb6a7,
        iv: 0xb727d48445bb2aec498a6e97827c3467,
        blocks: 1,
        seed: 1,
        encrypted: 0xec00d1a671bc4af4985217db1e343594,
        decrypted: 0x2dcef5d0d9a3f23d606627d8455aa423,
    },
    TextCase {
        key: 0x0123456789abcdeffedcba9876543210,
        iv: 0x000102030405060708090a0b0c0d0e0f,
        blocks: 2,
        seed: 2,
        encrypted: 0xd717cb4aeb27c3ff62b81d162f46fe53,
        decrypted: 0xd95464d1c5615680cbc95f1bb129d4c2,
    },
    TextCase {
        key: 0xd624d55e7d25efe4e28a24e7c26bf798,
        iv: 0x933b58cdb2c065b0a5fabf7dce4400a5,
        blocks: 3,
        seed: 3,
        encrypted: 0xb0c616c890bff928136fcd2a10c79548,
        decrypted: 0x669b32c268ad3841a6486dd35fea7cfa,
    },
    TextCase {
        key: 0x83490a737033e6fe54d5350759b9b404,
        iv: 0xbc75a46b05d8b212354c6477688247e7,
        blocks: 4,
        seed: 17,
        encrypted: 0x38f3aad87dd8815d3733eda9dc3cc5e3,
        decrypted: 0x18d19655b3ea04eedb40d8ede35cc581,
    },
    TextCase {
        key: 0xba95a08580753e7f2ed43e35d65b4a6c,
        iv: 0xf19fd63cf55c1799844019caa62cc169,
        blocks: 5,
        seed: 255,
        encrypted: 0x3c8e86e308bac6b4bde43d86956e5895,
        decrypted: 0x6a5ca112afccc714a441dc08c483aadb,
    },
    TextCase {
        key: 0x9be467663b03e19fbcea9f1848efa413,
        iv: 0x109fd933ba719b022f8eabb323b6039a,
        blocks: 7,
        seed: 100,
        encrypted: 0x7713f6afd89ab777b0a76092c4d52718,
        decrypted: 0x85a0596ee550b6d2a760d43236463b67,
    },
    TextCase {
        key: 0xf820ba684d0b86eba6cd9cd0e484d613,
        iv: 0xe454c21315837b318a61b42cb77f054f,
        blocks: 16,
        seed: 9,
        encrypted: 0x89446e6685d0e5883c889de454b62682,
        decrypted: 0x4cff3f15b2d70ff59b01218b363f8c78,
    },
    TextCase {
        key: 0x8bacd74bfb4f5c152af69e171d68cc56,
        iv: 0x9c79ea445591873f25b3983ff11dd818,
        blocks: 33,
        seed: 77,
        encrypted: 0x5fa425d20f8077b24c343394d109dab7,
        decrypted: 0x0e745d056869c0cb994d694d26ee8e1a,
    },
    TextCase {
        key: 0xa561efb4d130e2da6a7f33424f6472a2,
        iv: 0x2c85c8650de13fc2611a9704a3196cd9,
        blocks: 64,
        seed: 128,
        encrypted: 0x520b8fa60622274ad7acd0006c3d6338,
        decrypted: 0x7d48d533ac287aa0694e003130451f9f,
    },
    TextCase {
        key: 0xc7f3026865d1ce383283a22c570db81d,
        iv: 0x3b218a041be38441e17ccf5949fa708a,
        blocks: 85,
        seed: 200,
        encrypted: 0xc2a983f03057c84e4af57b93eb9cc45a,
        decrypted: 0xb6a9c6dfe0343c5d227729b11e6ef64c,
    },
    TextCase {
        key: 0x99c3d5d4c3a1f5263303b4611a264ecc,
        iv: 0xa3626687a9c7366a6bbfbde06929a3a2,
        blocks: 128,
        seed: 31,
        encrypted: 0x81d83730a73400c39241e888a05d0dc6,
        decrypted: 0xce8cfd3d3415c5c358f9e9935b87a0c0,
    },
    TextCase {
        key: 0x3a2017d7d7fe418963167692293e26ab,
        iv: 0x7ff4aed0627c2fdd938ac04b30b7d1f6,
        blocks: 1023,
        seed: 64,
        encrypted: 0xdba9780fc6a11ee5d41498bac68c1ea1,
        decrypted: 0x62b03ec0b0d680e35e6f4f20acbbbd3e,
    },
    TextCase {
        key: 0x4b00b42720a47ffb28ff6594d2f7d8e2,
        iv: 0xbe5512ffcce4cead3cd1cbc9aa6990ab,
        blocks: 1024,
        seed: 5,
        encrypted: 0xa2f01fce2adca399af248e2b64e3bac1,
        decrypted: 0x54777eb1efd3a375d411f171ab157b8f,
    },
];
