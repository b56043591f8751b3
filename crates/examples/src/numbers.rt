// Examples: the number and the layer of each refusal, and a fault.
use refusals::{Fault, Layer, Refusal};

#[test]
fn numbers_and_layers(rt: HostRuntime) {
    let cases = [
        (Refusal::Full, 1, Layer::Book),
        (Refusal::Phase, 2, Layer::Book),
        (Refusal::Span, 3, Layer::Book),
        (Refusal::Figure, 4, Layer::Book),
        (Refusal::Fan, 5, Layer::Book),
        (Refusal::Node, 6, Layer::Book),
        (Refusal::Pair, 7, Layer::Book),
        (Refusal::Assist, 8, Layer::Book),
        (Refusal::Clock, 9, Layer::Book),
        (Refusal::Unfed, 10, Layer::Book),
        (Refusal::Short, 11, Layer::Book),
        (Refusal::Digits, 12, Layer::Digits),
        (Refusal::Frame, 13, Layer::Frame),
        (Refusal::Order, 14, Layer::Book),
    ];
    for (refusal, number, layer) in cases {
        assert_eq!(rt; u8::from(refusal), number);
        assert_eq!(rt; Layer::from(refusal), layer);
    }
    let fault = Fault {
        line: 3,
        layer: Layer::Frame,
        refusal: Refusal::Frame,
    };
    assert_eq!(rt; Fault::at(3, Refusal::Frame), fault);
}
